//! The combination `and_not` at one index: two flags are read, however long the masks are. Either mask may be absent.
ghost use Rattle.std.specs.Prelude.{◌≡◌, [], ◌∷◌, ◌++◌, IfOk};
ghost use Rattle.masks.specs.Refusal.{failure_of};
ghost use Rattle.masks.specs.Checks.{first_failed};
ghost use Rattle.masks.specs.Mask.{mask_checks};
ghost use Rattle.masks.specs.AtIndex.{and_not_at_checks, and_not_flag, flag_or};
ghost use Rattle.masks.specs.AtIndex.{index_checks, index_inside, length_checks};
ghost use Rattle.masks.specs.Workers.{Indexed};

use crate::bitmap::Bitmap;
use crate::checks::check_mask;
use crate::refusal::{Refusal, check, earlier};
use words::word::flag_at;

/// Returns whether the flag at `index` is set in the first mask and not in the second. An absent first mask counts as all ones, and an
/// absent second one takes nothing away. Refuses with 6 if `index` is not below the length of a mask that is present, with 5 if the lengths
/// of two differ. This function and its checks are compiled into its callers, so that no record goes through memory (PROVING,
/// `and_not_at`).
#[inline(always)]
pub fn and_not_at(
    first: Option<Bitmap>,
    first_bytes: &[u8],
    second: Option<Bitmap>,
    second_bytes: &[u8],
    index: usize,
) -> Result<bool, Refusal>
    ensures refused { failure_of result ≡ first_failed
        (and_not_at_checks first first_bytes.now second second_bytes.now index) }
    ensures flag { IfOk result (λ x. x ≡
        and_not_flag first first_bytes.now second second_bytes.now index) }
{
    check_and_not_at(first, first_bytes, second, second_bytes, index)?;
    let own = flag_or(true, first, first_bytes, index);
    let taken = flag_or(false, second, second_bytes, index);
    Ok(own && !taken)
}

// Returns the flag of a mask at `index`, or `absent` if there is no mask.
fn flag_or(absent: bool, mask: Option<Bitmap>, bytes: &[u8], index: usize) -> bool
    requires { Indexed mask index }
    ensures { result ≡ flag_or absent mask bytes.now index }
{
    match mask {
        Some(m) => flag_at(bytes, m.start + index),
        None => absent,
    }
}

// Makes the checks of each mask that is there, with check 6 of the index, and check 5 if both are there. Without a mask makes none.
#[inline(always)]
fn check_and_not_at(
    first: Option<Bitmap>,
    first_bytes: &[u8],
    second: Option<Bitmap>,
    second_bytes: &[u8],
    index: usize,
) -> Result<(), Refusal>
    ensures { failure_of result ≡ first_failed
        (and_not_at_checks first first_bytes.now second second_bytes.now index) }
{
    let lengths = check_lengths(first, second);
    let other = check_index(second, second_bytes, index);
    earlier(
        check_index(first, first_bytes, index),
        earlier(other, lengths),
    )
}

// Makes the checks of a mask and of the index, if there is a mask.
fn check_index(mask: Option<Bitmap>, bytes: &[u8], index: usize) -> Result<(), Refusal>
    ensures { failure_of result ≡ first_failed (index_checks mask bytes.now index) }
{
    match mask {
        Some(m) => check_inside(m, bytes, index),
        None => Ok(()),
    }
}

// Makes the checks of a mask, and check 6: the index is below its length.
fn check_inside(mask: Bitmap, bytes: &[u8], index: usize) -> Result<(), Refusal>
    ensures { failure_of result ≡ first_failed
        (mask_checks mask bytes.now ++ (index_inside index mask ∷ [])) }
{
    check_mask(mask, bytes)?;
    check(Refusal::OutsideMask, index < mask.length)
}

// Checks that two masks, if both are there, have equal lengths.
fn check_lengths(first: Option<Bitmap>, second: Option<Bitmap>) -> Result<(), Refusal>
    ensures { failure_of result ≡ first_failed (length_checks first second) }
{
    match (first, second) {
        (Some(a), Some(b)) => check(Refusal::UnequalLengths, a.length == b.length),
        _ => Ok(()),
    }
}
