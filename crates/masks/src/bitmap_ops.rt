//! The combinations: each writes its flags as frozen bytes to the start of a lent output. Masks start at any bit. Each refuses with 5 if
//! the lengths of its masks differ, with 9 if the output is too short; nothing is then written. The crate `words` writes whole words of
//! flags, which are the frozen bytes of the contracts by the law `frozen-written` of `CombineLaws`.
ghost use Rattle.std.specs.Prelude.{◌≡◌, [], ◌∷◌, length, IfOk, OnOk, OnErr};
ghost use Rattle.words.specs.declared.ops.Op.TheVariants.{And, AndNot, Or, OrNot, Xor};
ghost use Rattle.masks.specs.Refusal.{failure_of};
ghost use Rattle.masks.specs.Checks.{first_failed};
ghost use Rattle.masks.specs.Frozen.{with_frozen};
ghost use Rattle.masks.specs.Combine.{pair_checks, pair_flags, pair_mask, not_checks, not_flags, select_checks, select_flags};
ghost use Rattle.masks.specs.Combine.{largest_serial, result_mask, select_constant_flags};
ghost use Rattle.masks.specs.Mask.{mask_under, uncounted};

use crate::bitmap::{Bitmap, mask_under, not_counted};
use crate::checks::{check_mask, check_output};
use crate::refusal::{Refusal, check, earlier};
use crate::shortcuts::{pair_shortcut, result_count};
use words::loops::{combine, fill};
use words::ops::Op;

// Returns the largest serial of two masks, also of one that a shortcut does not read.
fn pair_serial(lhs: Bitmap, rhs: Bitmap) -> u32
    ensures { result ≡ largest_serial (lhs ∷ rhs ∷ []) }
{
    lhs.serial.max(rhs.serial)
}

// Returns the largest serial of three masks.
fn select_serial(selector: Bitmap, truthy: Bitmap, falsy: Bitmap) -> u32
    ensures { result ≡ largest_serial (selector ∷ truthy ∷ falsy ∷ []) }
{
    selector.serial.max(truthy.serial.max(falsy.serial))
}

// Makes the checks of two masks, check 5 of their lengths, and check 9 of an output of `size` bytes.
fn check_pair(
    lhs: Bitmap,
    lhs_bytes: &[u8],
    rhs: Bitmap,
    rhs_bytes: &[u8],
    size: usize,
) -> Result<(), Refusal>
    ensures { failure_of result ≡ first_failed
        (pair_checks lhs lhs_bytes.now rhs rhs_bytes.now size) }
{
    let room = check_output(lhs.length, size);
    let equal = check(Refusal::UnequalLengths, lhs.length == rhs.length);
    let second = check_mask(rhs, rhs_bytes);
    let first = check_mask(lhs, lhs_bytes);
    earlier(first, earlier(second, earlier(equal, room)))
}

// Combines two masks by an operation on two flags: makes the checks, then writes the flag of the shortcut, or without one goes flag by
// flag. For speed the operands are made before the shortcut, and count and serial after the flags are written (PROVING, `combine_two`).
fn combine_two(
    op: Op,
    lhs: Bitmap,
    lhs_bytes: &[u8],
    rhs: Bitmap,
    rhs_bytes: &[u8],
    out: &mut [u8],
) -> Result<Bitmap, Refusal>
    ensures refused { failure_of result ≡ first_failed
        (pair_checks lhs lhs_bytes.now rhs rhs_bytes.now (length out.old)) }
    ensures mask { IfOk result (λ m. m ≡ pair_mask op lhs lhs_bytes.now rhs rhs_bytes.now) }
    ensures bytes { OnOk result (out.new ≡ with_frozen out.old
        (pair_flags op lhs lhs_bytes.now rhs rhs_bytes.now)) }
    ensures unchanged { OnErr result (out.new ≡ out.old) }
{
    check_pair(lhs, lhs_bytes, rhs, rhs_bytes, out.len())?;
    let a = lhs.flags(lhs_bytes);
    let b = rhs.flags(rhs_bytes);
    let shortcut = pair_shortcut(op, lhs, lhs_bytes, rhs, rhs_bytes);
    let n = lhs.length;
    match shortcut {
        Some(flag) => fill(flag, n, out),
        None => combine(op, &a, &b, &b, n, out),
    }
    let unset = result_count(shortcut, n);
    let serial = pair_serial(lhs, rhs);
    Ok(mask_under(serial, 0, n, unset))
}

/// Writes the flags that are set in both masks as frozen bytes to the start of `out`, and returns the mask of them. This and the four below
/// are the Rust's names for `combine_two`.
pub fn and(
    lhs: Bitmap,
    lhs_bytes: &[u8],
    rhs: Bitmap,
    rhs_bytes: &[u8],
    out: &mut [u8],
) -> Result<Bitmap, Refusal>
    ensures refused { failure_of result ≡ first_failed
        (pair_checks lhs lhs_bytes.now rhs rhs_bytes.now (length out.old)) }
    ensures mask { IfOk result (λ m. m ≡ pair_mask And lhs lhs_bytes.now rhs rhs_bytes.now) }
    ensures bytes { OnOk result (out.new ≡ with_frozen out.old
        (pair_flags And lhs lhs_bytes.now rhs rhs_bytes.now)) }
    ensures unchanged { OnErr result (out.new ≡ out.old) }
{
    combine_two(Op::And, lhs, lhs_bytes, rhs, rhs_bytes, out)
}

/// Writes the flags that are set in the first mask and not in the second as frozen bytes to the start of `out`, and returns the mask of
/// them.
pub fn and_not(
    lhs: Bitmap,
    lhs_bytes: &[u8],
    rhs: Bitmap,
    rhs_bytes: &[u8],
    out: &mut [u8],
) -> Result<Bitmap, Refusal>
    ensures refused { failure_of result ≡ first_failed
        (pair_checks lhs lhs_bytes.now rhs rhs_bytes.now (length out.old)) }
    ensures mask { IfOk result (λ m. m ≡ pair_mask AndNot lhs lhs_bytes.now rhs rhs_bytes.now) }
    ensures bytes { OnOk result (out.new ≡ with_frozen out.old
        (pair_flags AndNot lhs lhs_bytes.now rhs rhs_bytes.now)) }
    ensures unchanged { OnErr result (out.new ≡ out.old) }
{
    combine_two(Op::AndNot, lhs, lhs_bytes, rhs, rhs_bytes, out)
}

/// Writes the flags that are set in at least one of two masks as frozen bytes to the start of `out`, and returns the mask of them.
pub fn or(
    lhs: Bitmap,
    lhs_bytes: &[u8],
    rhs: Bitmap,
    rhs_bytes: &[u8],
    out: &mut [u8],
) -> Result<Bitmap, Refusal>
    ensures refused { failure_of result ≡ first_failed
        (pair_checks lhs lhs_bytes.now rhs rhs_bytes.now (length out.old)) }
    ensures mask { IfOk result (λ m. m ≡ pair_mask Or lhs lhs_bytes.now rhs rhs_bytes.now) }
    ensures bytes { OnOk result (out.new ≡ with_frozen out.old
        (pair_flags Or lhs lhs_bytes.now rhs rhs_bytes.now)) }
    ensures unchanged { OnErr result (out.new ≡ out.old) }
{
    combine_two(Op::Or, lhs, lhs_bytes, rhs, rhs_bytes, out)
}

/// Writes the flags that are set in the first mask or not set in the second as frozen bytes to the start of `out`, and returns the mask of
/// them.
pub fn or_not(
    lhs: Bitmap,
    lhs_bytes: &[u8],
    rhs: Bitmap,
    rhs_bytes: &[u8],
    out: &mut [u8],
) -> Result<Bitmap, Refusal>
    ensures refused { failure_of result ≡ first_failed
        (pair_checks lhs lhs_bytes.now rhs rhs_bytes.now (length out.old)) }
    ensures mask { IfOk result (λ m. m ≡ pair_mask OrNot lhs lhs_bytes.now rhs rhs_bytes.now) }
    ensures bytes { OnOk result (out.new ≡ with_frozen out.old
        (pair_flags OrNot lhs lhs_bytes.now rhs rhs_bytes.now)) }
    ensures unchanged { OnErr result (out.new ≡ out.old) }
{
    combine_two(Op::OrNot, lhs, lhs_bytes, rhs, rhs_bytes, out)
}

/// Writes the flags that are set in exactly one of two masks as frozen bytes to the start of `out`, and returns the mask of them.
pub fn xor(
    lhs: Bitmap,
    lhs_bytes: &[u8],
    rhs: Bitmap,
    rhs_bytes: &[u8],
    out: &mut [u8],
) -> Result<Bitmap, Refusal>
    ensures refused { failure_of result ≡ first_failed
        (pair_checks lhs lhs_bytes.now rhs rhs_bytes.now (length out.old)) }
    ensures mask { IfOk result (λ m. m ≡ pair_mask Xor lhs lhs_bytes.now rhs rhs_bytes.now) }
    ensures bytes { OnOk result (out.new ≡ with_frozen out.old
        (pair_flags Xor lhs lhs_bytes.now rhs rhs_bytes.now)) }
    ensures unchanged { OnErr result (out.new ≡ out.old) }
{
    combine_two(Op::Xor, lhs, lhs_bytes, rhs, rhs_bytes, out)
}

// Makes the checks of a mask, and check 9 of an output of `size` bytes.
fn check_not(mask: Bitmap, bytes: &[u8], size: usize) -> Result<(), Refusal>
    ensures { failure_of result ≡ first_failed (not_checks mask bytes.now size) }
{
    check_mask(mask, bytes)?;
    check_output(mask.length, size)
}

/// Writes the inverted flags of a mask as frozen bytes to the start of `out`, and returns the mask of them.
pub fn not(mask: Bitmap, bytes: &[u8], out: &mut [u8]) -> Result<Bitmap, Refusal>
    ensures refused { failure_of result ≡ first_failed
        (not_checks mask bytes.now (length out.old)) }
    ensures mask { IfOk result (λ m. m ≡
        result_mask (mask ∷ []) mask.length (uncounted mask.length)) }
    ensures bytes { OnOk result (out.new ≡ with_frozen out.old (not_flags mask bytes.now)) }
    ensures unchanged { OnErr result (out.new ≡ out.old) }
{
    check_not(mask, bytes, out.len())?;
    let n = mask.length;
    let own = mask.flags(bytes);
    combine(Op::Not, &own, &own, &own, n, out);
    let unset = not_counted(n);
    Ok(mask_under(mask.serial, 0, n, unset))
}

// Makes the checks of three masks, check 5 of their lengths, and check 9 of an output of `size` bytes.
fn check_select(
    selector: Bitmap,
    selector_bytes: &[u8],
    truthy: Bitmap,
    truthy_bytes: &[u8],
    falsy: Bitmap,
    falsy_bytes: &[u8],
    size: usize,
) -> Result<(), Refusal>
    ensures { failure_of result ≡ first_failed (select_checks
        selector selector_bytes.now truthy truthy_bytes.now falsy falsy_bytes.now size) }
{
    let room = check_output(selector.length, size);
    let third = check(Refusal::UnequalLengths, selector.length == falsy.length);
    let second = check(Refusal::UnequalLengths, selector.length == truthy.length);
    let lengths = earlier(second, earlier(third, room));
    let masks = earlier(check_mask(falsy, falsy_bytes), lengths);
    earlier(
        check_mask(selector, selector_bytes),
        earlier(check_mask(truthy, truthy_bytes), masks),
    )
}

/// Writes the flag of `truthy` where that of `selector` is set, and that of `falsy` elsewhere, as frozen bytes to the start of `out`, and
/// returns the mask of them.
pub fn select(
    selector: Bitmap,
    selector_bytes: &[u8],
    truthy: Bitmap,
    truthy_bytes: &[u8],
    falsy: Bitmap,
    falsy_bytes: &[u8],
    out: &mut [u8],
) -> Result<Bitmap, Refusal>
    ensures refused { failure_of result ≡ first_failed (select_checks
        selector selector_bytes.now truthy truthy_bytes.now
        falsy falsy_bytes.now (length out.old)) }
    ensures mask { IfOk result (λ m. m ≡
        result_mask (selector ∷ truthy ∷ falsy ∷ []) selector.length (uncounted selector.length)) }
    ensures bytes { OnOk result (out.new ≡ with_frozen out.old (select_flags
        selector selector_bytes.now truthy truthy_bytes.now falsy falsy_bytes.now)) }
    ensures unchanged { OnErr result (out.new ≡ out.old) }
{
    check_select(
        selector,
        selector_bytes,
        truthy,
        truthy_bytes,
        falsy,
        falsy_bytes,
        out.len(),
    )?;
    let n = selector.length;
    let a = selector.flags(selector_bytes);
    let b = truthy.flags(truthy_bytes);
    let c = falsy.flags(falsy_bytes);
    combine(Op::Select, &a, &b, &c, n, out);
    let unset = not_counted(n);
    let serial = select_serial(selector, truthy, falsy);
    Ok(mask_under(serial, 0, n, unset))
}

/// Writes the flag of `truthy` where that of `selector` is set, and `flag` elsewhere, as frozen bytes to the start of `out`, and returns
/// the mask of them.
pub fn select_constant(
    selector: Bitmap,
    selector_bytes: &[u8],
    truthy: Bitmap,
    truthy_bytes: &[u8],
    flag: bool,
    out: &mut [u8],
) -> Result<Bitmap, Refusal>
    ensures refused { failure_of result ≡ first_failed
        (pair_checks selector selector_bytes.now truthy truthy_bytes.now (length out.old)) }
    ensures mask { IfOk result (λ m. m ≡
        result_mask (selector ∷ truthy ∷ []) selector.length (uncounted selector.length)) }
    ensures bytes { OnOk result (out.new ≡ with_frozen out.old (select_constant_flags
        selector selector_bytes.now truthy truthy_bytes.now flag)) }
    ensures unchanged { OnErr result (out.new ≡ out.old) }
{
    check_pair(selector, selector_bytes, truthy, truthy_bytes, out.len())?;
    let n = selector.length;
    let a = selector.flags(selector_bytes);
    let b = truthy.flags(truthy_bytes);
    if flag {
        combine(Op::OrNot, &b, &a, &a, n, out);
    } else {
        combine(Op::And, &a, &b, &b, n, out);
    }
    let unset = not_counted(n);
    let serial = pair_serial(selector, truthy);
    Ok(mask_under(serial, 0, n, unset))
}
