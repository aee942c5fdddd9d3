//! Exported to C and Rust: the combinations of masks of equal lengths. The mask returned has start 0 and the largest of their serials.
#![tactic(auto, using(masks::proofs::refusal::ClauseLaws::answered, masks::proofs::refusal::ClauseLaws::written), unfolding(masks::specs::equations::Combine::pair_of, masks::specs::equations::Combine::pair_bytes, masks::specs::equations::Combine::each_of, masks::specs::equations::Combine::each_bytes))]

ghost use Rattle.std.specs.Prelude.{◌≡◌};
ghost use Rattle.masks.specs.Combine.{And, AndNot, Or, OrNot, Xor};
ghost use Rattle.masks.specs.equations.Combine.{pair_bytes, pair_of};
ghost use Rattle.masks.specs.equations.Combine.{not_bytes, not_of, select_bytes, select_constant_bytes, select_constant_of, select_of};
ghost use Rattle.capi.specs.Answers.{as_mask};
ghost use Rattle.capi.specs.Records.{mask_in};

use crate::answers::MaskAnswer;
use crate::records::Mask;
use crate::short::{not_near, pair_near, select_constant_near, select_near};
use masks::bitmap_ops::{and, and_not, not, or, or_not, select, select_constant, xor};
use words::ops::Op;

/// Writes which flags are set in both masks, as frozen bytes at the start of `out`, and returns the mask over them.
///
/// ```
/// use poruwhina::calls::{and, try_new};
///
/// // of 1,1,0 and 1,0,0
/// let mask = try_new(&[0], 0, 3).mask;
/// let mut out = [0; 8];
/// and(mask, &[0x03], mask, &[0x01], &mut out);
/// assert_eq!(out[0], 0x01);
/// ```
#[unsafe(no_mangle)]
pub extern "C" fn pw_and(
    lhs: Mask,
    lhs_bytes: &[u8],
    rhs: Mask,
    rhs_bytes: &[u8],
    out: &mut [u8],
) -> MaskAnswer
    ensures answer { result ≡
        as_mask (pair_of And (mask_in lhs) lhs_bytes.now (mask_in rhs) rhs_bytes.now out.old) }
    ensures bytes { out.new ≡
        pair_bytes And (mask_in lhs) lhs_bytes.now (mask_in rhs) rhs_bytes.now out.old }
{
    if let Some(answer) = pair_near(Op::And, lhs, lhs_bytes, rhs, rhs_bytes, out) {
        return answer;
    }
    and(lhs.into(), lhs_bytes, rhs.into(), rhs_bytes, out).into()
}

/// Writes which flags are set in the first mask and not in the second, as frozen bytes at the start of `out`, and returns the mask over
/// them.
///
/// ```
/// use poruwhina::calls::{and_not, try_new};
///
/// // of 0,0,1 and 1,0,0
/// let mask = try_new(&[0], 0, 3).mask;
/// let mut out = [0; 8];
/// and_not(mask, &[0x04], mask, &[0x01], &mut out);
/// assert_eq!(out[0], 0x04);
/// ```
#[unsafe(no_mangle)]
pub extern "C" fn pw_and_not(
    lhs: Mask,
    lhs_bytes: &[u8],
    rhs: Mask,
    rhs_bytes: &[u8],
    out: &mut [u8],
) -> MaskAnswer
    ensures answer { result ≡
        as_mask (pair_of AndNot (mask_in lhs) lhs_bytes.now (mask_in rhs) rhs_bytes.now out.old) }
    ensures bytes { out.new ≡
        pair_bytes AndNot (mask_in lhs) lhs_bytes.now (mask_in rhs) rhs_bytes.now out.old }
{
    if let Some(answer) = pair_near(Op::AndNot, lhs, lhs_bytes, rhs, rhs_bytes, out) {
        return answer;
    }
    and_not(lhs.into(), lhs_bytes, rhs.into(), rhs_bytes, out).into()
}

/// Writes which flags are set in at least one of two masks, as frozen bytes at the start of `out`, and returns the mask over them.
///
/// ```
/// use poruwhina::calls::{or, try_new};
///
/// // of 0,0,1 and 1,0,0
/// let mask = try_new(&[0], 0, 3).mask;
/// let mut out = [0; 8];
/// or(mask, &[0x04], mask, &[0x01], &mut out);
/// assert_eq!(out[0], 0x05);
/// ```
#[unsafe(no_mangle)]
pub extern "C" fn pw_or(
    lhs: Mask,
    lhs_bytes: &[u8],
    rhs: Mask,
    rhs_bytes: &[u8],
    out: &mut [u8],
) -> MaskAnswer
    ensures answer { result ≡
        as_mask (pair_of Or (mask_in lhs) lhs_bytes.now (mask_in rhs) rhs_bytes.now out.old) }
    ensures bytes { out.new ≡
        pair_bytes Or (mask_in lhs) lhs_bytes.now (mask_in rhs) rhs_bytes.now out.old }
{
    if let Some(answer) = pair_near(Op::Or, lhs, lhs_bytes, rhs, rhs_bytes, out) {
        return answer;
    }
    or(lhs.into(), lhs_bytes, rhs.into(), rhs_bytes, out).into()
}

/// Writes which flags are set in the first mask or not set in the second, as frozen bytes at the start of `out`, and returns the mask
/// over them.
///
/// ```
/// use poruwhina::calls::{or_not, try_new};
///
/// // of 0,0,1 and 1,0,0
/// let mask = try_new(&[0], 0, 3).mask;
/// let mut out = [0; 8];
/// or_not(mask, &[0x04], mask, &[0x01], &mut out);
/// assert_eq!(out[0], 0x06);
/// ```
#[unsafe(no_mangle)]
pub extern "C" fn pw_or_not(
    lhs: Mask,
    lhs_bytes: &[u8],
    rhs: Mask,
    rhs_bytes: &[u8],
    out: &mut [u8],
) -> MaskAnswer
    ensures answer { result ≡
        as_mask (pair_of OrNot (mask_in lhs) lhs_bytes.now (mask_in rhs) rhs_bytes.now out.old) }
    ensures bytes { out.new ≡
        pair_bytes OrNot (mask_in lhs) lhs_bytes.now (mask_in rhs) rhs_bytes.now out.old }
{
    if let Some(answer) = pair_near(Op::OrNot, lhs, lhs_bytes, rhs, rhs_bytes, out) {
        return answer;
    }
    or_not(lhs.into(), lhs_bytes, rhs.into(), rhs_bytes, out).into()
}

/// Writes which flags differ between two masks, as frozen bytes at the start of `out`, and returns the mask over them.
///
/// ```
/// use poruwhina::calls::{xor, try_new};
///
/// // of 0,0,1 and 1,0,0
/// let mask = try_new(&[0], 0, 3).mask;
/// let mut out = [0; 8];
/// xor(mask, &[0x04], mask, &[0x01], &mut out);
/// assert_eq!(out[0], 0x05);
/// ```
#[unsafe(no_mangle)]
pub extern "C" fn pw_xor(
    lhs: Mask,
    lhs_bytes: &[u8],
    rhs: Mask,
    rhs_bytes: &[u8],
    out: &mut [u8],
) -> MaskAnswer
    ensures answer { result ≡
        as_mask (pair_of Xor (mask_in lhs) lhs_bytes.now (mask_in rhs) rhs_bytes.now out.old) }
    ensures bytes { out.new ≡
        pair_bytes Xor (mask_in lhs) lhs_bytes.now (mask_in rhs) rhs_bytes.now out.old }
{
    if let Some(answer) = pair_near(Op::Xor, lhs, lhs_bytes, rhs, rhs_bytes, out) {
        return answer;
    }
    xor(lhs.into(), lhs_bytes, rhs.into(), rhs_bytes, out).into()
}

/// Writes each flag of a mask inverted, as frozen bytes at the start of `out`, and returns the mask over them.
///
/// ```
/// use poruwhina::calls::{not, try_new};
///
/// let mut out = [0; 8];
/// not(try_new(&[0x2D], 0, 6).mask, &[0x2D], &mut out);
/// assert_eq!(out[0], 0x12);
/// ```
#[unsafe(no_mangle)]
pub extern "C" fn pw_not(mask: Mask, bytes: &[u8], out: &mut [u8]) -> MaskAnswer
    ensures answer { result ≡ as_mask (not_of (mask_in mask) bytes.now out.old) }
    ensures bytes { out.new ≡ not_bytes (mask_in mask) bytes.now out.old }
{
    if let Some(answer) = not_near(mask, bytes, out) {
        return answer;
    }
    not(mask.into(), bytes, out).into()
}

/// Writes the flag of `truthy` where the selector's is set, else that of `falsy`, as frozen bytes at the start of `out`, and returns the
/// mask over them.
///
/// ```
/// use poruwhina::calls::{select, try_new};
///
/// let mask = try_new(&[0], 0, 4).mask;
/// let mut out = [0; 8];
/// select(mask, &[0x05], mask, &[0x03], mask, &[0x0E], &mut out);
/// assert_eq!(out[0], 0x0B);
/// ```
#[unsafe(no_mangle)]
pub extern "C" fn pw_select(
    selector: Mask,
    selector_bytes: &[u8],
    truthy: Mask,
    truthy_bytes: &[u8],
    falsy: Mask,
    falsy_bytes: &[u8],
    out: &mut [u8],
) -> MaskAnswer
    ensures answer { result ≡
        as_mask (select_of (mask_in selector) selector_bytes.now
        (mask_in truthy) truthy_bytes.now (mask_in falsy) falsy_bytes.now out.old) }
    ensures bytes { out.new ≡
        select_bytes (mask_in selector) selector_bytes.now
        (mask_in truthy) truthy_bytes.now (mask_in falsy) falsy_bytes.now out.old }
{
    let near = select_near(
        selector,
        selector_bytes,
        truthy,
        truthy_bytes,
        falsy,
        falsy_bytes,
        out,
    );
    if let Some(answer) = near {
        return answer;
    }
    select(
        selector.into(),
        selector_bytes,
        truthy.into(),
        truthy_bytes,
        falsy.into(),
        falsy_bytes,
        out,
    )
    .into()
}

/// Writes the flag of `truthy` where the selector's is set, else `flag`, as frozen bytes at the start of `out`, and returns the mask over
/// them.
///
/// ```
/// use poruwhina::calls::{select_constant, try_new};
///
/// let mask = try_new(&[0], 0, 4).mask;
/// let mut out = [0; 8];
/// select_constant(mask, &[0x05], mask, &[0x03], true, &mut out);
/// assert_eq!(out[0], 0x0B);
/// ```
#[unsafe(no_mangle)]
pub extern "C" fn pw_select_constant(
    selector: Mask,
    selector_bytes: &[u8],
    truthy: Mask,
    truthy_bytes: &[u8],
    flag: bool,
    out: &mut [u8],
) -> MaskAnswer
    ensures answer { result ≡
        as_mask (select_constant_of (mask_in selector) selector_bytes.now (mask_in truthy) truthy_bytes.now flag out.old) }
    ensures bytes { out.new ≡
        select_constant_bytes (mask_in selector) selector_bytes.now (mask_in truthy) truthy_bytes.now flag out.old }
{
    let near = select_constant_near(selector, selector_bytes, truthy, truthy_bytes, flag, out);
    if let Some(answer) = near {
        return answer;
    }
    select_constant(
        selector.into(),
        selector_bytes,
        truthy.into(),
        truthy_bytes,
        flag,
        out,
    )
    .into()
}
