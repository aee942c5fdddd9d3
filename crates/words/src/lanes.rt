//! Lanes: words of a lent stretch, all in range, so that a loop over them has no padding and no slow path. Three lanes with the number of
//! words that they all have are what the loops of `kernels` read.
ghost use Rattle.std.specs.Prelude.{◌≡◌, ◌*◌, ◌+◌, ◌-◌, ◌/◌, ◌≤◌, ◌<◌, ℕ, List, length};
ghost use Rattle.words.specs.Flags.{word_flags, flags_of, window};
ghost use Rattle.words.specs.Loops.{combined};

use crate::flags::Operand;
use crate::loops::words_in_range;
use crate::operations::Operation;
use crate::word::{full_word, shifted_word};

pub(crate) trait Lane: Drop {
    // The bytes, the flag at which the lane begins, and how many words are in range from there.
    ghost source: { Self → List ℕ };

    ghost start: { Self → ℕ };

    ghost words: { Self → ℕ };

    // Returns word i of the lane.
    fn word(&self, i: usize) -> u64
        requires { i < words self.now }
        ensures { word_flags result ≡ window (flags_of (source self.now)) (start self.now + 64 * i) 64 };

    // Returns how many words are in range.
    fn words_in_range(&self) -> usize
        ensures { result ≡ words self.now };

    // Returns the lane that begins at word i.
    fn later(&self, i: usize) -> Self
        requires { i ≤ words self.now }
        ensures same { source result ≡ source self.now }
        ensures start { start result ≡ start self.now + 64 * i }
        ensures words { words result + i ≡ words self.now };
}

// n words that begin at a byte. Not a slice of arrays of eight bytes (`as_chunks`): if n is 0 the byte may lie past the end, so that `at`
// would have to be cut to the length of the bytes first (PROVING, `ByteLane`).
#[derive(Clone, Copy)]
pub(crate) struct ByteLane<'a> {
    pub(crate) bytes: &'a [u8],
    pub(crate) at: usize,
    pub(crate) n: usize,
    ghost in_range: { 8 * n ≤ length bytes.now - at },
}

impl<'a> ByteLane<'a> {
    // Returns as many words as there are, starting at byte `at`.
    pub(crate) fn new(bytes: &'a [u8], at: usize) -> Self
        ensures source { (result.bytes.now ≡ bytes.now) × (result.at ≡ at) }
        ensures n { result.n ≡ (length bytes.now - at) / 8 }
    {
        ByteLane {
            bytes,
            at,
            n: words_in_range(bytes.len(), at),
        }
    }

    // Returns the k words that begin at word i.
    pub(crate) fn part(&self, i: usize, k: usize) -> Self
        requires { i + k ≤ self.now.n }
        ensures { (result.bytes.now ≡ self.now.bytes.now) × (result.at ≡ self.now.at + 8 * i) × (result.n ≡ k) }
    {
        ByteLane {
            bytes: self.bytes,
            at: self.at + 8 * i,
            n: k,
        }
    }
}

impl Lane for ByteLane<'_> {
    ghost source = { λ s. s.bytes.now };

    ghost start = { λ s. 8 * s.at };

    ghost words = { λ s. s.n };

    fn word(&self, i: usize) -> u64 {
        full_word(self.bytes, self.at + 8 * i)
    }

    fn words_in_range(&self) -> usize {
        self.n
    }

    fn later(&self, i: usize) -> Self {
        self.part(i, self.n - i)
    }
}

// A lane that begins at any flag of a byte, which needs one more byte in range.
#[derive(Clone, Copy)]
pub(crate) struct BitLane<'a> {
    pub(crate) bytes: &'a [u8],
    pub(crate) at: usize,
    pub(crate) shift: usize,
    ghost low: { shift ≤ 8 },
}

impl<'a> BitLane<'a> {
    // Returns the lane that begins at the first of `flags`.
    pub(crate) fn new(flags: Operand<'a>) -> Self
        ensures source { result.bytes.now ≡ flags.entry.bytes.now }
        ensures start { 8 * result.at + result.shift ≡ flags.entry.start }
    {
        BitLane {
            bytes: flags.bytes,
            at: flags.start / 8,
            shift: flags.start % 8,
        }
    }
}

impl Lane for BitLane<'_> {
    ghost source = { λ s. s.bytes.now };

    ghost start = { λ s. 8 * s.at + s.shift };

    ghost words = { λ s. (length s.bytes.now - (s.at + 1)) / 8 };

    fn word(&self, i: usize) -> u64 {
        shifted_word(self.bytes, self.at + 8 * i, self.shift)
    }

    fn words_in_range(&self) -> usize {
        words_in_range(self.bytes.len().saturating_sub(1), self.at)
    }

    fn later(&self, i: usize) -> Self {
        BitLane {
            bytes: self.bytes,
            at: self.at + 8 * i,
            shift: self.shift,
        }
    }
}

// Three lanes, and a number n of words that each of them has in range.
#[derive(Drop)]
pub(crate) struct Lanes<A: Lane, B: Lane, C: Lane> {
    pub(crate) a: A,
    pub(crate) b: B,
    pub(crate) c: C,
    pub(crate) n: usize,
    ghost in_a: { n ≤ A.words a },
    ghost in_b: { n ≤ B.words b },
    ghost in_c: { n ≤ C.words c },
}

impl<A: Lane, B: Lane, C: Lane> Lanes<A, B, C> {
    // Returns three lanes with the number of words that all three have in range, at most `most`.
    pub(crate) fn new(most: usize, a: A, b: B, c: C) -> Self
        ensures n { result.n ≤ most }
        ensures a { (result.n ≤ A.words a) × (A.source result.a ≡ A.source a) × (A.start result.a ≡ A.start a) }
        ensures b { (result.n ≤ B.words b) × (B.source result.b ≡ B.source b) × (B.start result.b ≡ B.start b) }
        ensures c { (result.n ≤ C.words c) × (C.source result.c ≡ C.source c) × (C.start result.c ≡ C.start c) }
    {
        let n = most
            .min(a.words_in_range())
            .min(b.words_in_range().min(c.words_in_range()));
        Lanes { a, b, c, n }
    }

    // Returns word i of the three lanes, combined by the operation O.
    pub(crate) fn word<O: Operation>(&self, i: usize) -> u64
        requires { i < self.now.n }
        ensures { word_flags result ≡ window (combined O.op (A.source self.now.a) (A.start self.now.a) (B.source self.now.b)
            (B.start self.now.b) (C.source self.now.c) (C.start self.now.c) (64 * self.now.n)) (64 * i) 64 }
    {
        let x = self.a.word(i);
        let y = self.b.word(i);
        let z = self.c.word(i);
        O::word(x, y, z)
    }

    // Returns the three lanes with the k words that begin at word i.
    pub(crate) fn part(&self, i: usize, k: usize) -> Self
        requires { i + k ≤ self.now.n }
        ensures n { result.n ≡ k }
        ensures a { (A.source result.a ≡ A.source self.now.a) × (A.start result.a ≡ A.start self.now.a + 64 * i) }
        ensures b { (B.source result.b ≡ B.source self.now.b) × (B.start result.b ≡ B.start self.now.b + 64 * i) }
        ensures c { (C.source result.c ≡ C.source self.now.c) × (C.start result.c ≡ C.start self.now.c + 64 * i) }
    {
        let a = self.a.later(i);
        let b = self.b.later(i);
        let c = self.c.later(i);
        Lanes { a, b, c, n: k }
    }
}
