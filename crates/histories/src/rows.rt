//! Ties each row of `MaskRows` to its call: each function here makes one call of masks and nothing else, and its contract is the row's
//! answer and the row's bytes. Nobody calls these functions; a row for another call would leave its function unproved.
#![tactic(auto, using(masks::proofs::refusal::ClauseLaws::answered, masks::proofs::refusal::ClauseLaws::answered_back, masks::proofs::refusal::ClauseLaws::written, masks::proofs::refusal::ClauseLaws::answered_recounted), unfolding(masks::specs::equations::Combine::pair_of, masks::specs::equations::Combine::pair_bytes, masks::specs::equations::Combine::each_of, masks::specs::equations::Combine::each_bytes, masks::specs::equations::Mask::slice_of))]

ghost use Rattle.std.specs.Prelude.{◌≡◌};
ghost use Rattle.masks.specs.equations.Answer.{answer, answer_back};
ghost use Rattle.histories.specs.MaskRows.{constant_row, count_row, not_row, pair_row, recounted, select_row, slice_row};
ghost use Rattle.histories.specs.ReferenceList.{Pair};
ghost use Rattle.histories.specs.Rows.{one, two, three, with_bytes};

use masks::bitmap::{Bitmap, Recounted};
use masks::bitmap_ops::{and, and_not, not, or, or_not, select, select_constant, xor};
use masks::refusal::{Refusal, Refused};

/// Calls `slice`; answers as the row of `slice` does.
pub fn slice_row(
    mask: Bitmap,
    bytes: &[u8],
    offset: usize,
    length: usize,
) -> Result<Bitmap, Refused<Bitmap>>
    ensures { answer_back result ≡ (slice_row offset length).answer mask bytes.now }
{
    mask.slice(bytes, offset, length)
}

/// Calls `unset_bits`; answers as its row does. The row keeps the mask and drops the count.
pub fn count_row(mask: Bitmap, bytes: &[u8]) -> Result<Recounted, Refused<Bitmap>>
    ensures { recounted (answer_back result) ≡ count_row.answer mask bytes.now }
{
    mask.unset_bits(bytes)
}

/// Calls `and`; answers and writes as the row of `and` does.
pub fn and_row(
    lhs: Bitmap,
    left: &[u8],
    rhs: Bitmap,
    right: &[u8],
    out: &mut [u8],
) -> Result<Bitmap, Refusal>
    ensures answer { answer result ≡
        (pair_row Pair.and out.old).answer (two (with_bytes lhs left.now) (with_bytes rhs right.now)) }
    ensures bytes { out.new ≡
        (pair_row Pair.and out.old).bytes (two (with_bytes lhs left.now) (with_bytes rhs right.now)) }
{
    and(lhs, left, rhs, right, out)
}

/// Calls `and_not`; answers and writes as the row of `and_not` does.
pub fn and_not_row(
    lhs: Bitmap,
    left: &[u8],
    rhs: Bitmap,
    right: &[u8],
    out: &mut [u8],
) -> Result<Bitmap, Refusal>
    ensures answer { answer result ≡
        (pair_row Pair.and_not out.old).answer (two (with_bytes lhs left.now) (with_bytes rhs right.now)) }
    ensures bytes { out.new ≡
        (pair_row Pair.and_not out.old).bytes (two (with_bytes lhs left.now) (with_bytes rhs right.now)) }
{
    and_not(lhs, left, rhs, right, out)
}

/// Calls `or`; answers and writes as the row of `or` does.
pub fn or_row(
    lhs: Bitmap,
    left: &[u8],
    rhs: Bitmap,
    right: &[u8],
    out: &mut [u8],
) -> Result<Bitmap, Refusal>
    ensures answer { answer result ≡
        (pair_row Pair.or out.old).answer (two (with_bytes lhs left.now) (with_bytes rhs right.now)) }
    ensures bytes { out.new ≡
        (pair_row Pair.or out.old).bytes (two (with_bytes lhs left.now) (with_bytes rhs right.now)) }
{
    or(lhs, left, rhs, right, out)
}

/// Calls `or_not`; answers and writes as the row of `or_not` does.
pub fn or_not_row(
    lhs: Bitmap,
    left: &[u8],
    rhs: Bitmap,
    right: &[u8],
    out: &mut [u8],
) -> Result<Bitmap, Refusal>
    ensures answer { answer result ≡
        (pair_row Pair.or_not out.old).answer (two (with_bytes lhs left.now) (with_bytes rhs right.now)) }
    ensures bytes { out.new ≡
        (pair_row Pair.or_not out.old).bytes (two (with_bytes lhs left.now) (with_bytes rhs right.now)) }
{
    or_not(lhs, left, rhs, right, out)
}

/// Calls `xor`; answers and writes as the row of `xor` does.
pub fn xor_row(
    lhs: Bitmap,
    left: &[u8],
    rhs: Bitmap,
    right: &[u8],
    out: &mut [u8],
) -> Result<Bitmap, Refusal>
    ensures answer { answer result ≡
        (pair_row Pair.xor out.old).answer (two (with_bytes lhs left.now) (with_bytes rhs right.now)) }
    ensures bytes { out.new ≡
        (pair_row Pair.xor out.old).bytes (two (with_bytes lhs left.now) (with_bytes rhs right.now)) }
{
    xor(lhs, left, rhs, right, out)
}

/// Calls `not`; answers and writes as the row of `not` does.
pub fn not_row(mask: Bitmap, bytes: &[u8], out: &mut [u8]) -> Result<Bitmap, Refusal>
    ensures answer { answer result ≡ (not_row out.old).answer (one (with_bytes mask bytes.now)) }
    ensures bytes { out.new ≡ (not_row out.old).bytes (one (with_bytes mask bytes.now)) }
{
    not(mask, bytes, out)
}

/// Calls `select`; answers and writes as the row of `select` does.
pub fn select_row(
    selector: Bitmap,
    by: &[u8],
    truthy: Bitmap,
    yes: &[u8],
    falsy: Bitmap,
    no: &[u8],
    out: &mut [u8],
) -> Result<Bitmap, Refusal>
    ensures answer { answer result ≡ (select_row out.old).answer
        (three (with_bytes selector by.now) (with_bytes truthy yes.now) (with_bytes falsy no.now)) }
    ensures bytes { out.new ≡ (select_row out.old).bytes
        (three (with_bytes selector by.now) (with_bytes truthy yes.now) (with_bytes falsy no.now)) }
{
    select(selector, by, truthy, yes, falsy, no, out)
}

/// Calls `select_constant`; answers and writes as the row of `select_constant` does.
pub fn constant_row(
    selector: Bitmap,
    by: &[u8],
    truthy: Bitmap,
    yes: &[u8],
    flag: bool,
    out: &mut [u8],
) -> Result<Bitmap, Refusal>
    ensures answer { answer result ≡
        (constant_row flag out.old).answer (two (with_bytes selector by.now) (with_bytes truthy yes.now)) }
    ensures bytes { out.new ≡
        (constant_row flag out.old).bytes (two (with_bytes selector by.now) (with_bytes truthy yes.now)) }
{
    select_constant(selector, by, truthy, yes, flag, out)
}
