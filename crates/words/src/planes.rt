//! Bit planes: plane i has digit i of 64 numbers, so that a word is added to all 64 with a few operations. `totals` takes fewer
//! than 512 words, so that nine planes hold each number.
ghost use Rattle.std.specs.Prelude.{◌≡◌, [], ℕ, ◌+◌, ◌^◌, ◌<◌, ◌≤◌, get_or, length};
ghost use Rattle.words.specs.Planes.{planes_at, added, Added, FourMore, Grown, Totals, Wrote};

use crate::columns::{digit_by, single_flags};

// Adds w to the numbers in the planes: each plane passes its carry to the next, and that of the last is lost.
fn add(planes: &mut [u64], w: u64)
    ensures { planes.new ≡ added planes.old w }
{
    let mut carry = w;
    for plane in planes.iter_mut() {
        let p = *plane;
        *plane = p ^ carry;
        carry = p & carry;
    }
}

// The two digits of a sum of three flags, in each column.
#[derive(Clone, Copy)]
pub(crate) struct Sum {
    pub(crate) low: u64,
    pub(crate) high: u64,
}

// Adds the flags of x, y and z, column by column.
pub(crate) fn full_add(x: u64, y: u64, z: u64) -> Sum
    ensures { Added x y z result.low result.high }
{
    let u = x ^ y;
    Sum {
        low: u ^ z,
        high: (x & y) | (u & z),
    }
}

// Three digits of a number, in each column.
#[derive(Clone, Copy)]
struct Digits {
    ones: u64,
    twos: u64,
    fours: u64,
}

// Adds four words, column by column, to the digits p and q, and returns three digits.
fn add_four(p: u64, q: u64, words: &[u64]) -> Digits
    requires { length words.now ≡ 4 }
    ensures { FourMore words.now p q result.ones result.twos result.fours }
{
    let a = full_add(p, words[0], words[1]);
    let b = full_add(a.low, words[2], words[3]);
    let c = full_add(q, a.high, b.high);
    Digits {
        ones: b.low,
        twos: c.low,
        fours: c.high,
    }
}

// Adds eight words to nine planes.
fn add_eight(planes: &mut [u64; 9], words: &[u64])
    requires { length words.now ≡ 8 }
    ensures { Grown planes.old words.now planes.new }
{
    let a = add_four(planes[0], planes[1], &words[..4]);
    let b = add_four(a.ones, a.twos, &words[4..]);
    let d = full_add(planes[2], a.fours, b.fours);
    planes[0] = b.ones;
    planes[1] = b.twos;
    planes[2] = d.low;
    add(&mut planes[3..], d.high);
}

// Returns nine planes that hold, for each column, how many of the words have its flag set. The words are added eight at a time and the rest
// one by one.
pub(crate) fn totals(words: &[u64]) -> [u64; 9]
    requires { length words.now < 512 }
    ensures { Totals words.now result [] }
{
    let mut planes: [u64; 9] = [0; 9];
    let eights = words.chunks_exact(8);
    let rest = eights.remainder();
    for eight in eights {
        add_eight(&mut planes, eight);
    }
    for w in rest {
        add(&mut planes, *w);
    }
    planes
}

// Returns the number of column s + c, where c is the one flag that `mask` has set.
fn column_by<const N: usize>(planes: &[u64; N], s: usize, mask: u32) -> u32
    requires { (s ≤ 32) × (N ≤ 9) }
    ensures { (c : ℕ) → c < 32 → mask ≡ 2 ^ c → result ≡ planes_at planes.now (s + c) }
{
    let mut sum: u32 = 0;
    for (i, p) in planes.iter().enumerate() {
        // to u32: there is no From; 32 flags fit
        let half = ((*p >> s) % 4294967296) as u32;
        sum += digit_by(half, mask) << i;
    }
    sum
}

// Writes the numbers of the 32 columns that begin at column s.
fn spread_half<const N: usize>(planes: &[u64; N], masks: &[u32; 32], s: usize, out: &mut [u32])
    requires { (length out.old ≡ 32) × ((c : ℕ) → c < 32 → get_or masks.now c 0 ≡ 2 ^ c) × ((s ≤ 32) × (N ≤ 9)) }
    ensures { Wrote planes.now s out.new 32 }
{
    // by place: after `iter_mut().zip(masks)` std has no clause on the numbers that were written
    for (c, number) in out.iter_mut().enumerate() {
        *number = column_by(planes, s, masks[c]);
    }
}

// Returns the numbers of all 64 columns.
pub(crate) fn spread<const N: usize>(planes: &[u64; N]) -> [u32; 64]
    requires { N ≤ 9 }
    ensures { Wrote planes.now 0 result 64 }
{
    let mut out: [u32; 64] = [0; 64];
    let tests = single_flags();
    spread_half(planes, &tests, 0, &mut out[..32]);
    spread_half(planes, &tests, 32, &mut out[32..]);
    out
}
