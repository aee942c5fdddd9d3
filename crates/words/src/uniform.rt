//! Whether all flags of a stretch equal one flag. The first word with another flag ends the search, so that one load is mostly enough for a
//! stretch of mixed flags.
ghost use Rattle.std.specs.Prelude.{◌≡◌, map, ◌*◌, take};
ghost use Rattle.std.specs.Bool.{xor};
ghost use Rattle.words.specs.Flags.{flags_of, window, word_flags};
ghost use Rattle.words.specs.Loops.{stretch};
ghost use Rattle.words.specs.Uniform.{all_equal, differs_early};

use crate::counts::{count_ones, is_set};
use crate::lanes::{ByteLane, Lane};
use crate::loops::words_in_range;
use crate::ops::{not_word, or_word};
use crate::word::{byte_word, full_word, low_flags, near_word, shr_or_zero};

// Returns a word whose set flags are the flags of w that differ from `flag`.
fn differing(flag: bool, w: u64) -> u64
    ensures { word_flags result ≡ map (xor flag) (word_flags w) }
{
    if flag { not_word(w) } else { w }
}

// Returns whether the k low flags of w all equal `flag`.
pub(crate) fn low_all_equal(flag: bool, w: u64, k: usize) -> bool
    ensures { result ≡ all_equal flag (take k (word_flags w)) }
{
    !is_set(low_flags(differing(flag, w), k))
}

// Returns whether all flags of `words` equal `flag`. Those that differ are joined by `or`, with no end before the last word, so that the
// loop is vectorised.
fn block_all_equal(flag: bool, words: &ByteLane) -> bool
    ensures { result ≡ all_equal flag (window (flags_of words.now.bytes.now) (8 * words.now.at) (64 * words.now.n)) }
{
    let mut others: u64 = 0;
    // a range: see `ByteLane` for why its words are no slice
    for i in 0..words.n {
        others = or_word(others, differing(flag, words.word(i)));
    }
    !is_set(others)
}

// Returns whether all flags of `words` equal `flag`. Checks 64 words at a time and stops at the first block with another flag. `any_whole`
// of `counts` has the same loop; the reason why it is not shared is there.
fn words_all_equal(flag: bool, words: &ByteLane) -> bool
    ensures { result ≡ all_equal flag (window (flags_of words.now.bytes.now) (8 * words.now.at) (64 * words.now.n)) }
{
    let n = words.n;
    let mut i = 0;
    // block by block, the last of which is shorter: faster than `step_by(64)` (PROVING, `words_all_equal`)
    while i < n {
        let k = (n - i).min(64);
        let block = words.part(i, k);
        if !block_all_equal(flag, &block) {
            return false;
        }
        i += k;
    }
    true
}

// Returns whether all flags of a stretch equal `flag`, by the count of its ones.
fn all_equal_by_count(flag: bool, bytes: &[u8], start: usize, len: usize) -> bool
    ensures { result ≡ all_equal flag (stretch bytes.now start len) }
{
    let ones = count_ones(bytes, start, len);
    if flag { ones == len } else { ones == 0 }
}

/// Returns whether all flags of a stretch equal `flag`; true if it has none. Compares those of the first eight bytes, whole words, and the
/// rest; if the whole words reach past the bytes, counts the ones instead.
pub fn all_equal(flag: bool, bytes: &[u8], start: usize, len: usize) -> bool
    ensures { result ≡ all_equal flag (stretch bytes.now start len) }
{
    let w = near_word(bytes, start);
    let k = 64 - start % 8;
    if len <= k {
        return low_all_equal(flag, w, len);
    }
    let n = (len - k) / 64;
    let q = start / 8 + 8;
    if words_in_range(bytes.len(), q) < n {
        return all_equal_by_count(flag, bytes, start, len);
    }
    let words = ByteLane { bytes, at: q, n };
    low_all_equal(flag, w, k)
        && words_all_equal(flag, &words)
        && low_all_equal(flag, byte_word(bytes, q + 8 * n), (len - k) % 64)
}

/// Returns whether a flag other than `flag` is among the stretch's flags in its first eight bytes; false if there are fewer bytes. For
/// callers that make this check in their own bodies, with one load, and call `all_equal` if it returns false.
pub fn differs_early(flag: bool, bytes: &[u8], start: usize, len: usize) -> bool
    ensures { result ≡ differs_early flag bytes.now start len }
{
    let end = start / 8 + 8;
    if bytes.len() < end {
        return false;
    }
    let others = shr_or_zero(differing(flag, full_word(bytes, start / 8)), start % 8);
    is_set(low_flags(others, len))
}
