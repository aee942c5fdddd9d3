//! The later revocation wins: of two masks of one operator, each over its own bytes, the one with the larger serial, and the part of the
//! lent bytes that holds it. The caller makes sure that both masks are one operator's.
ghost use Rattle.std.specs.Prelude.{◌≡◌, ◌≢◌, ◌≤◌, [], IfOk};
ghost use Rattle.masks.specs.Refusal.{failure_of};
ghost use Rattle.masks.specs.Checks.{first_failed, limit};
ghost use Rattle.masks.specs.Superseding.{part_bytes, winner_of, part_place, superseding_checks, winning};

use crate::bitmap::{Bitmap, cut_mask};
use crate::checks::check_mask;
use crate::compare::eq;
use crate::refusal::{Refusal, check, earlier};

/// The winner: whether it is the second mask, the part of its slice that holds it, from byte `from` to before byte `to`, and its record
/// over that part. `second` is part of the answer: it does not say how to read another field.
#[derive(Clone, Copy, PartialEq, Eq, Debug)]
pub struct Winner {
    pub second: bool,
    pub from: usize,
    pub to: usize,
    pub mask: Bitmap,
}

// Makes checks 1 to 3 of both masks, and check 14: masks with equal serials have equal lists. Compares the lists only if the serials are
// equal.
fn check_superseding(
    first: Bitmap,
    first_bytes: &[u8],
    second: Bitmap,
    second_bytes: &[u8],
) -> Result<(), Refusal>
    ensures { failure_of result ≡ first_failed
        (superseding_checks first first_bytes.now second second_bytes.now) }
{
    if first.serial != second.serial {
        return earlier(
            check_mask(first, first_bytes),
            check_mask(second, second_bytes),
        );
    }
    let same = eq(first, first_bytes, second, second_bytes)?;
    check(Refusal::SerialConflict, same)
}

// Returns the part of its slice that holds a mask, and the mask over that part. No type says that the mask's checks have passed: a `Bitmap`
// is the reference's record, of any numbers, and a `CheckedSpan` has neither the count nor the serial that the part keeps.
fn winner_of(second: bool, mask: Bitmap) -> Winner
    requires { (mask.start ≤ limit) × (mask.length ≤ limit) }
    ensures { result ≡ winner_of second mask }
{
    let from = mask.start / 8;
    let end = mask.start + mask.length;
    let to = end.div_ceil(8);
    let start = mask.start % 8;
    let unset = mask.unset;
    let fitted = cut_mask(mask, start, mask.length, unset);
    Winner {
        second,
        from,
        to,
        mask: fitted,
    }
}

/// Returns the mask with the larger serial, the first if they are equal, and where its bytes are: for callers that keep the bytes
/// themselves. Refuses with 14 if the serials are equal and the lists are not.
pub fn superseding_part(
    first: Bitmap,
    first_bytes: &[u8],
    second: Bitmap,
    second_bytes: &[u8],
) -> Result<Winner, Refusal>
    ensures refused { failure_of result ≡ first_failed
        (superseding_checks first first_bytes.now second second_bytes.now) }
    ensures part { IfOk result (λ p. p ≡ winning first second) }
{
    check_superseding(first, first_bytes, second, second_bytes)?;
    if first.serial < second.serial {
        return Ok(winner_of(true, second));
    }
    Ok(winner_of(false, first))
}

/// Returns the record of the mask with the larger serial, the first if they are equal, over the part that `superseding_bytes` returns.
pub fn superseding(
    first: Bitmap,
    first_bytes: &[u8],
    second: Bitmap,
    second_bytes: &[u8],
) -> Result<Bitmap, Refusal>
    ensures refused { failure_of result ≡ first_failed
        (superseding_checks first first_bytes.now second second_bytes.now) }
    ensures mask { IfOk result (λ m. m ≡ (winning first second).mask) }
{
    let part = superseding_part(first, first_bytes, second, second_bytes)?;
    Ok(part.mask)
}

/// Returns the bytes of the mask with the larger serial, the first if they are equal: a part of one of the two slices. After a refusal it
/// is an empty part of the first.
pub fn superseding_bytes<'a>(
    first: Bitmap,
    first_bytes: &'a [u8],
    second: Bitmap,
    second_bytes: &'a [u8],
) -> &'a [u8]
    ensures part { first_failed
        (superseding_checks first first_bytes.now second second_bytes.now) ≡ 0
        → result.now ≡ part_bytes (winning first second) first_bytes.now second_bytes.now }
    ensures place { first_failed
        (superseding_checks first first_bytes.now second second_bytes.now) ≡ 0
        → result.ref_ptr ≡ part_place
        (winning first second) first_bytes.entry.ref_ptr second_bytes.entry.ref_ptr }
    ensures refused_part { first_failed
        (superseding_checks first first_bytes.now second second_bytes.now) ≢ 0
        → result.now ≡ [] }
    ensures refused_place { first_failed
        (superseding_checks first first_bytes.now second second_bytes.now) ≢ 0
        → result.ref_ptr ≡ first_bytes.entry.ref_ptr }
{
    match superseding_part(first, first_bytes, second, second_bytes) {
        Ok(part) => {
            let from = part.from;
            let to = part.to;
            if part.second {
                return &second_bytes[from..to];
            }
            &first_bytes[from..to]
        }
        Err(_) => &first_bytes[0..0],
    }
}
