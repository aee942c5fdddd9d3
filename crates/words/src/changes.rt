//! Flags that differ from the one before them: which flags of a word do, its set flags one after the other, and lists of such flags only.
ghost use Rattle.std.specs.Prelude.{false, ◌≡◌, get_or};
ghost use Rattle.words.specs.Changes.{alternating, changes, without_first};
ghost use Rattle.words.specs.Flags.{flags_of, over, word_flags};
ghost use Rattle.words.specs.Loops.{whole_words};

use crate::loops::words_for;
use crate::ops::{and_word, xor_word};
use crate::word::{concat_low, low_flags, shr_or_zero, store_at};

/// Returns which flags of w differ from the one before them: the one before the first is the last flag of `before`. So the words of a span
/// are read one after the other, each with the one before it.
pub fn changed_flags(before: u64, w: u64) -> u64
    ensures { word_flags result ≡ changes (get_or (word_flags before) 63 false) (word_flags w) }
{
    let last = shr_or_zero(before, 63);
    let moved = concat_low(last, 1, w);
    xor_word(moved, w)
}

/// Returns w with its first set flag cleared; w itself if no flag is set.
pub fn without_first(w: u64) -> u64
    ensures { word_flags result ≡ without_first (word_flags w) }
{
    if w == 0 {
        return w;
    }
    and_word(w, w - 1)
}

// Returns a word of alternating flags, the first of which is `first`.
fn alternating_word(first: bool) -> u64
    ensures { word_flags result ≡ alternating 64 first }
{
    if first {
        0x5555_5555_5555_5555
    } else {
        0xAAAA_AAAA_AAAA_AAAA
    }
}

/// Writes `len` alternating flags, the first of which is `first`, to the start of `out`, padded with zeros to whole words, as far as they
/// fit.
pub fn fill_alternating(first: bool, len: usize, out: &mut [u8])
    ensures { flags_of out.new ≡ over (flags_of out.old) (whole_words (alternating len first)) }
{
    let word = alternating_word(first);
    let n = words_for(len).min(out.len().div_ceil(8));
    for i in 0..n {
        store_at(out, 8 * i, low_flags(word, len - 64 * i));
    }
}
