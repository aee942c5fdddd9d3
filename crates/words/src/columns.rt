//! Words as rows of 64 flags: how many of them have each flag set, and half a word's flags as numbers.
ghost use Rattle.std.specs.Prelude.{◌≡◌, ◌<◌, ◌^◌, ℕ, cond, eqb, get_or, take};
ghost use Rattle.std.specs.Int.Bits.{bit_and};
ghost use Rattle.words.specs.Columns.{column_counts};

use crate::planes::{spread, totals};
use std::array;

/// Returns for each flag how many of the first 511 words have it set: nine planes hold no larger number. For fewer than 32 words only five
/// planes are read, since the others are zero (PROVING, `column_counts`).
pub fn column_counts(words: &[u64]) -> [u32; 64]
    ensures { result ≡ column_counts (take 511 words.now) }
{
    let n = words.len().min(511);
    let planes = totals(&words[..n]);
    if n < 32 {
        spread(&[planes[0], planes[1], planes[2], planes[3], planes[4]])
    } else {
        spread(&planes)
    }
}

/// Returns for each column of half a word the number with only its flag set. Columns are selected by numbers from memory: the target has no
/// shift by another number in each lane (PROVING, `single_flags`).
pub fn single_flags() -> [u32; 32]
    ensures { (c : ℕ) → c < 32 → get_or result c 0 ≡ 2 ^ c }
{
    array::from_fn(|c| 1 << c)
}

/// Returns 1 if `half` has the flag of `mask` set, else 0.
pub fn digit_by(half: u32, mask: u32) -> u32
    ensures { result ≡ cond (eqb (bit_and half mask) 0) 0 1 }
{
    u32::from(half & mask != 0)
}
