//! Loops over whole words of lanes: no padding and no slow path inside, so that they are vectorised. A loop has its operation and its
//! lanes as type parameters; `each` picks the operation.
ghost use Rattle.std.specs.Prelude.{◌≡◌, ◌*◌, ◌^◌, ◌≤◌, ◌<◌, ℕ, Bool, List, length};
ghost use Rattle.words.specs.Flags.{word_flags, bits, copies, flags_of, count, over, window};
ghost use Rattle.words.specs.Loops.{combined};
ghost use Rattle.words.specs.Counts.{any_set};

use crate::lanes::{Lane, Lanes};
use crate::operations::{And, AndNot, Not, Operation, Or, OrNot, Select, Xor};
use crate::ops::{Op, or_word};
use crate::word::{ones_in_word, put_word};

// A loop over n combined words, with an output that it may write to: a loop that writes nothing is lent an empty output.
pub(crate) trait Kernel {
    type Out;

    // The condition on the number of words and on the output.
    ghost takes: { ℕ → List ℕ → Type 0 };

    // The statement about the combined flags, the output before and after, and the result.
    ghost gives: { List Bool → List ℕ → List ℕ → Self.Out → Type 0 };

    // Runs the loop over the words of three lanes, combined by the operation O.
    fn run<O: Operation, A: Lane, B: Lane, C: Lane>(
        lanes: &Lanes<A, B, C>,
        out: &mut [u8],
    ) -> Self::Out
        requires { takes lanes.now.n out.old }
        ensures { gives (combined O.op (A.source lanes.now.a) (A.start lanes.now.a) (B.source lanes.now.b) (B.start lanes.now.b)
            (C.source lanes.now.c) (C.start lanes.now.c) (64 * lanes.now.n)) out.old out.new result };
}

// A loop that writes the combined words to the start of the output.
pub(crate) struct Combine;

impl Kernel for Combine {
    type Out = ();

    // Each loop that writes requires that n words fit: the output is a slice of the caller's, and no type has it with its n.
    ghost takes = { λ n out. 8 * n ≤ length out };

    ghost gives = { λ flags old new _. flags_of new ≡ over (flags_of old) flags };

    fn run<O: Operation, A: Lane, B: Lane, C: Lane>(lanes: &Lanes<A, B, C>, out: &mut [u8]) {
        // a range: i is the place of a word in three lanes, which have no slices of words, and in the output: std has no clause on what a
        // slice holds after `chunks_exact_mut`
        for i in 0..lanes.n {
            let w = lanes.word::<O>(i);
            put_word(out, 8 * i, w);
        }
    }
}

// A loop that counts the ones of the combined words.
pub(crate) struct Count;

impl Kernel for Count {
    type Out = usize;

    ghost takes = { λ n _. 64 * n < 2 ^ 64 };

    ghost gives = { λ flags _ _ ones. ones ≡ count flags };

    fn run<O: Operation, A: Lane, B: Lane, C: Lane>(
        lanes: &Lanes<A, B, C>,
        _out: &mut [u8],
    ) -> usize {
        let mut ones: usize = 0;
        // a range: i is the place of a word in three lanes, which have no slices of words
        for i in 0..lanes.n {
            ones += ones_in_word(lanes.word::<O>(i));
        }
        ones
    }
}

// A loop that joins the combined words by `or`. The result is 0 if and only if no flag is set.
pub(crate) struct Join;

impl Kernel for Join {
    type Out = u64;

    ghost takes = { λ _ _. Unit {0} };

    ghost gives = { λ flags _ _ all. any_set (word_flags all) ≡ any_set flags };

    fn run<O: Operation, A: Lane, B: Lane, C: Lane>(
        lanes: &Lanes<A, B, C>,
        _out: &mut [u8],
    ) -> u64 {
        let mut all: u64 = 0;
        // a range: i is the place of a word in three lanes, which have no slices of words
        for i in 0..lanes.n {
            all = or_word(all, lanes.word::<O>(i));
        }
        all
    }
}

// Runs the loop K with the operation `op` as a type parameter.
pub(crate) fn each<K: Kernel, A: Lane, B: Lane, C: Lane>(
    op: Op,
    lanes: &Lanes<A, B, C>,
    out: &mut [u8],
) -> K::Out
    requires { K.takes lanes.now.n out.old }
    ensures { K.gives (combined op (A.source lanes.now.a) (A.start lanes.now.a) (B.source lanes.now.b) (B.start lanes.now.b)
        (C.source lanes.now.c) (C.start lanes.now.c) (64 * lanes.now.n)) out.old out.new result }
{
    // a `match`: each arm names another type, and this is the one dispatch for all kernels
    match op {
        Op::And => K::run::<And, A, B, C>(lanes, out),
        Op::AndNot => K::run::<AndNot, A, B, C>(lanes, out),
        Op::Or => K::run::<Or, A, B, C>(lanes, out),
        Op::OrNot => K::run::<OrNot, A, B, C>(lanes, out),
        Op::Xor => K::run::<Xor, A, B, C>(lanes, out),
        Op::Not => K::run::<Not, A, B, C>(lanes, out),
        Op::Select => K::run::<Select, A, B, C>(lanes, out),
    }
}

// Copies n words of a lane to the start of `out` and counts their ones in the same pass.
pub(crate) fn copy_words<L: Lane>(lane: &L, n: usize, out: &mut [u8]) -> usize
    requires { (n ≤ L.words lane.now) × ((8 * n ≤ length out.old) × (64 * n < 2 ^ 64)) }
    ensures ones { result ≡ count (window (flags_of (L.source lane.now)) (L.start lane.now) (64 * n)) }
    ensures flags { flags_of out.new ≡ over (flags_of out.old) (window (flags_of (L.source lane.now)) (L.start lane.now) (64 * n)) }
{
    let mut ones: usize = 0;
    // a range: i is the place of a word in the lane, which has no slice of words, and in the output: std has no clause on what a slice
    // holds after `chunks_exact_mut`
    for i in 0..n {
        let w = lane.word(i);
        put_word(out, 8 * i, w);
        ones += ones_in_word(w);
    }
    ones
}

// Returns a byte whose flags all equal `flag`.
fn constant_byte(flag: bool) -> u8
    ensures { bits 8 result ≡ copies 8 flag }
{
    if flag { 255 } else { 0 }
}

// Fills `out` with copies of `flag`. Not by `fill`, which writes the last byte apart and is slower (PROVING, `fill_bytes`).
pub(crate) fn fill_bytes(flag: bool, out: &mut [u8])
    ensures { flags_of out.new ≡ copies (8 * length out.old) flag }
{
    let byte = constant_byte(flag);
    for b in out.iter_mut() {
        *b = byte;
    }
}
