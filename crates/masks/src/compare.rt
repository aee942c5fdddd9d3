//! The calls that compare or count the flags of one mask or of two: equality, edges and common ones.
ghost use Rattle.std.specs.Prelude.{◌≡◌, ◌++◌, IfOk};
ghost use Rattle.words.specs.Counts.{same_flags};
ghost use Rattle.masks.specs.Checks.{first_failed};
ghost use Rattle.masks.specs.Compare.{common, common_checks, edges};
ghost use Rattle.masks.specs.Mask.{mask_checks, mask_flags};
ghost use Rattle.masks.specs.Refusal.{failure_of};

use crate::bitmap::Bitmap;
use crate::checks::check_mask;
use crate::refusal::{Refusal, check, earlier};
use crate::span::CheckedSpan;
use words::counts::{count_ones_of, equal};
use words::ops::Op;

/// Returns whether two masks have the same length and flags. Compiled into its callers, which short masks notice (PROVING, `eq`).
#[inline(always)]
pub fn eq(lhs: Bitmap, lhs_bytes: &[u8], rhs: Bitmap, rhs_bytes: &[u8]) -> Result<bool, Refusal>
    ensures refused { failure_of result ≡ first_failed
        (mask_checks lhs lhs_bytes.now ++ mask_checks rhs rhs_bytes.now) }
    ensures flag { IfOk result (λ x. x ≡
        same_flags (mask_flags lhs lhs_bytes.now) (mask_flags rhs rhs_bytes.now)) }
{
    earlier(check_mask(lhs, lhs_bytes), check_mask(rhs, rhs_bytes))?;
    let n = lhs.length;
    let a = lhs.flags(lhs_bytes);
    let b = rhs.flags(rhs_bytes);
    Ok(n == rhs.length && equal(&a, &b, n))
}

/// Counts the flags that differ from the flag after them.
#[inline(always)]
pub fn num_edges(mask: Bitmap, bytes: &[u8]) -> Result<usize, Refusal>
    ensures refused { failure_of result ≡ first_failed (mask_checks mask bytes.now) }
    ensures edges { IfOk result (λ n. n ≡ edges (mask_flags mask bytes.now)) }
{
    check_mask(mask, bytes)?;
    let span = CheckedSpan {
        bytes,
        start: mask.start,
        length: mask.length,
    };
    Ok(span.edges())
}

/// Counts the flags that are set in both masks. Refuses with 5 if their lengths differ.
pub fn num_intersections_with(
    lhs: Bitmap,
    lhs_bytes: &[u8],
    rhs: Bitmap,
    rhs_bytes: &[u8],
) -> Result<usize, Refusal>
    ensures refused { failure_of result ≡ first_failed
        (common_checks lhs lhs_bytes.now rhs rhs_bytes.now) }
    ensures number { IfOk result (λ n. n ≡
        common (mask_flags lhs lhs_bytes.now) (mask_flags rhs rhs_bytes.now)) }
{
    let same = check(Refusal::UnequalLengths, lhs.length == rhs.length);
    let second = check_mask(rhs, rhs_bytes);
    earlier(check_mask(lhs, lhs_bytes), earlier(second, same))?;
    let a = lhs.flags(lhs_bytes);
    let b = rhs.flags(rhs_bytes);
    Ok(count_ones_of(Op::And, &a, &b, &b, lhs.length))
}
