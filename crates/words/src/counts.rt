//! Counting and comparing. A stretch is `len` flags of the bytes, starting at any flag, with zeros past their end. The time is bounded by
//! the bytes lent, whatever `len` is.
ghost use Rattle.std.specs.Prelude.{◌≡◌, true, false, not, ◌&&◌, ◌*◌, ◌-◌, ◌≤◌, drop, ltb};
ghost use Rattle.words.specs.Flags.{flags_of, count, digit, over, word_flags};
ghost use Rattle.words.specs.Ops.{op_of};
ghost use Rattle.words.specs.Kernels.{WholeWords};
ghost use Rattle.words.specs.Loops.{stretch, combined, whole_words};
ghost use Rattle.words.specs.Counts.{any_set, same_flags};

use crate::flags::Operand;
use crate::kernels::{Count, Join, copy_words, each};
use crate::lanes::{BitLane, ByteLane, Lane, Lanes};
use crate::loops::{copy, triple_word, words_for, words_in_range};
use crate::ops::{Op, combine_word};
use crate::rows::Countable;
use crate::word::{byte_word, low_flags, near_word, ones_below, ones_in_word, shr_or_zero};

/// Counts the ones of a stretch. Whole words that start at a byte, all in range, are counted with no check for partial ones. Rare cases are
/// in functions outside this body and get a slice or record of their own, so that this slice stays in registers. `ones` of `rows` makes the
/// same choice by the number of words; a call of it from here is slower (PROVING, `count_ones`).
pub fn count_ones(bytes: &[u8], start: usize, len: usize) -> usize
    ensures { result ≡ count (stretch bytes.now start len) }
{
    if whole_words(bytes.len(), start, len) {
        let at = start / 8;
        let n = len / 64;
        if n < 128 {
            let few = Countable {
                words: ByteLane { bytes, at, n },
            };
            return few.ones_single();
        }
        let many = Countable {
            words: ByteLane { bytes, at, n },
        };
        return many.ones_many();
    }
    count_mixed(&bytes[0..], start, len)
}

// Returns whether a stretch is whole words that start at a byte, all within `size` bytes.
fn whole_words(size: usize, start: usize, len: usize) -> bool
    ensures { result ≡ true → WholeWords size start len }
{
    start % 8 == 0 && len % 64 == 0 && len / 64 <= words_in_range(size, start / 8)
}

// Counts the ones of a stretch: of the first eight bytes, of whole words, and of the rest. What fits the first eight bytes is one load.
fn count_mixed(bytes: &[u8], start: usize, len: usize) -> usize
    ensures { result ≡ count (stretch bytes.now start len) }
{
    let k = 64 - start % 8;
    let w = near_word(bytes, start);
    if len <= k {
        return ones_below(w, len);
    }
    let q = start / 8 + 8;
    let n = ((len - k) / 64).min(words_in_range(bytes.len(), q));
    let first = ones_in_word(w);
    let words = Countable {
        words: ByteLane { bytes, at: q, n },
    };
    let mid = words.ones();
    let rest = len - k - 64 * n;
    let last = ones_below(byte_word(bytes, q + 8 * n), rest);
    first + mid + last
}

/// Copies a stretch to `out` as `copy` does, and counts its ones, also those that do not fit.
pub fn copy_count(bytes: &[u8], start: usize, len: usize, out: &mut [u8]) -> usize
    ensures ones { result ≡ count (stretch bytes.now start len) }
    ensures flags { flags_of out.new ≡ over (flags_of out.old) (whole_words (stretch bytes.now start len)) }
{
    if len % 64 != 0 || words_in_range(bytes.len(), start / 8 + 1).min(out.len() / 8) < len / 64 {
        return copy_then_count(bytes, start, len, out);
    }
    if start % 8 == 0 {
        let lane = ByteLane::new(bytes, start / 8);
        return copy_words(&lane, len / 64, out);
    }
    let lane = BitLane::new(Operand { bytes, start });
    copy_words(&lane, len / 64, out)
}

// Makes the copy and the count of `copy_count` in two passes, for a stretch with a word that is partial or out of range.
fn copy_then_count(bytes: &[u8], start: usize, len: usize, out: &mut [u8]) -> usize
    ensures ones { result ≡ count (stretch bytes.now start len) }
    ensures flags { flags_of out.new ≡ over (flags_of out.old) (whole_words (stretch bytes.now start len)) }
{
    copy(bytes, start, len, out);
    count_mixed(bytes, start, len)
}

// Returns a number of words that covers three slices of x, y and z bytes.
fn words_covering(x: usize, y: usize, z: usize) -> usize
    ensures { (x ≤ 8 * result) × ((y ≤ 8 * result) × (z ≤ 8 * result)) }
{
    // one word too many if the last is whole, which is faster than `div_ceil` (PROVING, `words_covering`)
    x.max(y).max(z) / 8 + 1
}

// Returns the flag that the operation yields past the end of all stretches.
fn past_end(op: Op) -> bool
    ensures { result ≡ op_of op false false false }
{
    is_set(combine_word(op, 0, 0, 0))
}

// Counts the ones among those of `len` flags that come after the first n words, all of which equal `flag`. 64 * n may be past the largest
// number, so n is compared first, which is faster than `saturating_mul` and `usize::from(flag)` (PROVING, `ones_after`).
fn ones_after(flag: bool, len: usize, n: usize) -> usize
    ensures { result ≡ (len - 64 * n) * digit flag }
{
    if flag && n <= len / 64 {
        len - 64 * n
    } else {
        0
    }
}

// Returns whether any of those of `len` flags that come after the first n words is set. All of these equal `flag`.
fn any_after(flag: bool, len: usize, n: usize) -> bool
    ensures { result ≡ (ltb (64 * n) len && flag) }
{
    flag && n.saturating_mul(64) < len
}

// Returns whether any flag of w is set.
pub(crate) fn is_set(w: u64) -> bool
    ensures { result ≡ any_set (word_flags w) }
{
    w != 0
}

/// Returns whether all flags of w at and above flag k are zero; true if k is 64 or more.
pub fn none_from(w: u64, k: usize) -> bool
    ensures { result ≡ not (any_set (drop k (word_flags w))) }
{
    !is_set(shr_or_zero(w, k))
}

/// Counts the ones of a combination of three stretches. The operation, the operands and the length are parameters here and in `loops`: a
/// struct of the five would be built in each call and taken apart again in each clause. It begins as `any_set` does: for at most a word
/// both call `triple_word`, and a function that makes the lanes would promise in four clauses what four lines do.
pub fn count_ones_of<'a>(
    op: Op,
    a: &Operand<'a>,
    b: &Operand<'a>,
    c: &Operand<'a>,
    len: usize,
) -> usize
    ensures { result ≡ count
        (combined op a.now.bytes.now a.now.start b.now.bytes.now b.now.start c.now.bytes.now c.now.start len) }
{
    if len <= 64 {
        return ones_in_word(triple_word(op, a, b, c, len, 0));
    }
    let n = words_for(len).min(words_covering(a.bytes.len(), b.bytes.len(), c.bytes.len()));
    let x = BitLane::new(*a);
    let y = BitLane::new(*b);
    let z = BitLane::new(*c);
    let lanes = Lanes::new(len / 64, x, y, z);
    let mut ones = each::<Count, BitLane, BitLane, BitLane>(op, &lanes, &mut []);
    // a range: i is the place of a word in three stretches, which have no slice of words
    for i in lanes.n..n {
        ones += ones_in_word(triple_word(op, a, b, c, len, i));
    }
    ones + ones_after(past_end(op), len, n)
}

// Returns whether any flag of three lanes combined is set. Checks 64 words at a time and stops at the first block with a set flag.
// `words_all_equal` of `uniform` has the same loop: a shared one would take the check of a block as a closure and promise its answer for
// each block, and both callers' proofs would have to join the blocks to flags again.
fn any_whole<A: Lane, B: Lane, C: Lane>(op: Op, lanes: &Lanes<A, B, C>) -> bool
    ensures { result ≡ any_set (combined op (A.source lanes.now.a) (A.start lanes.now.a) (B.source lanes.now.b) (B.start lanes.now.b)
        (C.source lanes.now.c) (C.start lanes.now.c) (64 * lanes.now.n)) }
{
    let n = lanes.n;
    let mut i = 0;
    // block by block, the last of which is shorter: faster than `step_by(64)` (PROVING, `any_whole`)
    while i < n {
        let k = (n - i).min(64);
        let block = lanes.part(i, k);
        let all = each::<Join, A, B, C>(op, &block, &mut []);
        if is_set(all) {
            return true;
        }
        i += k;
    }
    false
}

/// Returns whether any flag of a combination of three stretches is set.
pub fn any_set<'a>(op: Op, a: &Operand<'a>, b: &Operand<'a>, c: &Operand<'a>, len: usize) -> bool
    ensures { result ≡ any_set
        (combined op a.now.bytes.now a.now.start b.now.bytes.now b.now.start c.now.bytes.now c.now.start len) }
{
    if len <= 64 {
        return is_set(triple_word(op, a, b, c, len, 0));
    }
    let n = words_for(len).min(words_covering(a.bytes.len(), b.bytes.len(), c.bytes.len()));
    let x = BitLane::new(*a);
    let y = BitLane::new(*b);
    let z = BitLane::new(*c);
    let lanes = Lanes::new(len / 64, x, y, z);
    any_whole(op, &lanes)
        || (lanes.n..n).any(|i| is_set(triple_word(op, a, b, c, len, i)))
        || any_after(past_end(op), len, n)
}

/// Returns whether two stretches have the same flags. At most 64 are two words, compared here, in the caller's code: `any_set` reads three
/// (PROVING, `equal`).
#[inline(always)]
pub fn equal<'a>(a: &Operand<'a>, b: &Operand<'a>, len: usize) -> bool
    ensures { result ≡ same_flags (stretch a.now.bytes.now a.now.start len) (stretch b.now.bytes.now b.now.start len) }
{
    if len <= 64 {
        let x = a.word(0);
        let y = b.word(0);
        return !is_set(low_flags(combine_word(Op::Xor, x, y, y), len));
    }
    !any_set(Op::Xor, a, b, b, len)
}
