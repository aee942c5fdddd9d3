//! Loops that write. A stretch is `len` flags of the bytes, starting at any flag, with zeros past their end; no stretch and no output has
//! to be large enough. The time is bounded by the bytes lent, whatever `len` is.
ghost use Rattle.std.specs.Prelude.{◌≡◌, ◌*◌, ◌+◌, ◌-◌, ◌/◌, ◌≤◌, min, length};
ghost use Rattle.words.specs.Flags.{word_flags, copies, flags_of, over, window};
ghost use Rattle.words.specs.Loops.{stretch, combined, whole_words};

use crate::flags::Operand;
use crate::kernels::{Combine, each, fill_bytes};
use crate::lanes::{BitLane, ByteLane, Lanes};
use crate::ops::{Op, combine_word};
use crate::word::{constant_word, low_flags, store_at, store_le_u64};

// Returns how many whole words fit between byte `at` and byte `size`.
pub(crate) fn words_in_range(size: usize, at: usize) -> usize
    ensures { result ≡ (size - at) / 8 }
{
    size.saturating_sub(at) / 8
}

// Returns how many words hold `len` flags.
pub(crate) fn words_for(len: usize) -> usize
    ensures { result ≡ (len + 63) / 64 }
{
    len.div_ceil(64)
}

// Returns word i of a combination of three stretches, with zeros past their end.
pub(crate) fn triple_word<'a>(
    op: Op,
    a: &Operand<'a>,
    b: &Operand<'a>,
    c: &Operand<'a>,
    len: usize,
    i: usize,
) -> u64
    requires { 64 * i ≤ len }
    ensures { word_flags result ≡ window
        (combined op a.now.bytes.now a.now.start b.now.bytes.now b.now.start c.now.bytes.now c.now.start len) (64 * i) 64 }
{
    let x = a.word(i);
    let y = b.word(i);
    let z = c.word(i);
    low_flags(combine_word(op, x, y, z), len - 64 * i)
}

/// Combines three stretches and writes the result to the start of `out`, padded with zeros to whole words, as far as it fits. At most a
/// word is one store; of more, the whole words in range are written by a kernel, then the rest word by word. The test for no flags is made
/// only for a short stretch, so that longer ones do not pay for it (PROVING, `combine`).
pub fn combine<'a>(
    op: Op,
    a: &Operand<'a>,
    b: &Operand<'a>,
    c: &Operand<'a>,
    len: usize,
    out: &mut [u8],
)
    ensures { flags_of out.new ≡ over (flags_of out.old) (whole_words
        (combined op a.now.bytes.now a.now.start b.now.bytes.now b.now.start c.now.bytes.now c.now.start len)) }
{
    if len <= 64 {
        if len > 0 {
            store_le_u64(out, triple_word(op, a, b, c, len, 0));
        }
        return;
    }
    let n = words_for(len).min(out.len().div_ceil(8));
    let done = combine_whole(op, a, b, c, len, out);
    // a range: i is the place of a word in three stretches, which have no slices of words, and in the output: std has no clause on what a
    // slice holds after `chunks_mut`, by which the last word may be cut
    for i in done..n {
        store_at(out, 8 * i, triple_word(op, a, b, c, len, i));
    }
}

// Combines the whole words that are in range, and returns how many there were. It chooses the lanes: if all three stretches begin at a
// byte, a word is one load, else two.
fn combine_whole<'a>(
    op: Op,
    a: &Operand<'a>,
    b: &Operand<'a>,
    c: &Operand<'a>,
    len: usize,
    out: &mut [u8],
) -> usize
    ensures { (64 * result ≤ len) × ((8 * result ≤ length out.old)
        × (flags_of out.new ≡ over (flags_of out.old)
        (combined op a.now.bytes.now a.now.start b.now.bytes.now b.now.start c.now.bytes.now c.now.start (64 * result)))) }
{
    let most = (len / 64).min(out.len() / 8);
    if a.start % 8 == 0 && b.start % 8 == 0 && c.start % 8 == 0 {
        let x = ByteLane::new(a.bytes, a.start / 8);
        let y = ByteLane::new(b.bytes, b.start / 8);
        let z = ByteLane::new(c.bytes, c.start / 8);
        let lanes = Lanes::new(most, x, y, z);
        each::<Combine, ByteLane, ByteLane, ByteLane>(op, &lanes, out);
        return lanes.n;
    }
    let x = BitLane::new(*a);
    let y = BitLane::new(*b);
    let z = BitLane::new(*c);
    let lanes = Lanes::new(most, x, y, z);
    each::<Combine, BitLane, BitLane, BitLane>(op, &lanes, out);
    lanes.n
}

/// Copies a stretch to the start of `out`, padded with zeros to whole words, as far as it fits. Uses the combination `or` of the stretch
/// with itself.
pub fn copy(bytes: &[u8], start: usize, len: usize, out: &mut [u8])
    ensures { flags_of out.new ≡ over (flags_of out.old) (whole_words (stretch bytes.now start len)) }
{
    let all = Operand { bytes, start };
    combine(Op::Or, &all, &all, &all, len, out);
}

/// Writes `len` copies of a flag to the start of `out`, padded with zeros to whole words, as far as they fit.
pub fn fill(flag: bool, len: usize, out: &mut [u8])
    ensures { flags_of out.new ≡ over (flags_of out.old) (whole_words (copies len flag)) }
{
    let n = (len / 64).min(out.len() / 8);
    fill_bytes(flag, &mut out[..8 * n]);
    let done = 64 * n;
    if done < len {
        store_at(out, 8 * n, low_flags(constant_word(flag), len - done));
    }
}

/// Writes at most `words` whole words of a flag to the start of `out`, as many as fit.
pub fn fill_whole(flag: bool, words: usize, out: &mut [u8])
    ensures { flags_of out.new ≡ over (flags_of out.old) (copies (64 * min words (length out.old / 8)) flag) }
{
    let n = words.min(out.len() / 8);
    fill_bytes(flag, &mut out[..8 * n]);
}
