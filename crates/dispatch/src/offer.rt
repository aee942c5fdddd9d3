//! The next truck that may be reassigned: the first at or after a cursor that is permitted and not revoked, going round to truck 0 once. A
//! mask and its bytes are two parameters, as in `dispatch.rt`.
ghost use Rattle.std.specs.Prelude.{◌≡◌, ◌≤◌, IfOk, IfErr, Some};
ghost use Rattle.masks.specs.Checks.{first_failed};
ghost use Rattle.masks.specs.Refusal.{said};
ghost use Rattle.dispatch.specs.Offer.{most_windows, offer_checks, offer_failure, offered_of, windows_in};

use masks::bitmap::Bitmap;
use masks::next_and_not::next_and_not;
use masks::refusal::Refusal;
use std::error::Error;
use std::fmt;

/// A truck and the cursor one past it, or none and the cursor unchanged; and the number of windows of 32 flags that the search covers.
#[derive(Clone, Copy, PartialEq, Eq, Debug)]
pub struct Offering {
    pub truck: Option<usize>,
    pub cursor: usize,
    pub windows: usize,
}

/// The refusal of a check, and the cursor unchanged. Not masks' `Refused`: of the types of masks this crate names only those that
/// combinations and searches take or return.
#[derive(Clone, Copy, PartialEq, Eq, Debug)]
pub struct RefusedOffer {
    pub refusal: Refusal,
    pub cursor: usize,
}

impl fmt::Display for RefusedOffer {
    ghost output = { λ r. Some (said r.refusal) };

    fn fmt<W: fmt::Write>(&self, f: &mut fmt::Formatter<W>) -> fmt::Result {
        write!(f, "{}", self.refusal)
    }
}

impl Error for RefusedOffer {}

/// Returns the first truck at or after the cursor that is permitted and not revoked, else the first one of all. Refuses with 6 if the
/// cursor is above the length of the permission mask. Without a permission mask no truck is offered and no window counted, but checks 1, 2
/// and 3 apply to a revocation mask. A refusal has the cursor unchanged.
pub fn offer(
    permission: Option<Bitmap>,
    permission_bytes: &[u8],
    revocation: Option<Bitmap>,
    revocation_bytes: &[u8],
    cursor: usize,
) -> Result<Offering, RefusedOffer>
    ensures refused { offer_failure result ≡ first_failed
        (offer_checks permission permission_bytes.now revocation revocation_bytes.now cursor) }
    ensures offering { IfOk result (λ o. o ≡
        offered_of permission permission_bytes.now revocation revocation_bytes.now cursor) }
    ensures state { IfErr result (λ e. e.cursor ≡ cursor) }
    ensures bound { windows_in result ≤ most_windows permission }
{
    match permission {
        Some(m) => offer_next(m, permission_bytes, revocation, revocation_bytes, cursor),
        None => offer_none(permission_bytes, revocation, revocation_bytes, cursor),
    }
}

// Makes an offer with a permission mask: the truck that `next_and_not` finds.
#[tactic(auto, unfolding(crate::specs::Offer::offer_checks))]
fn offer_next(
    permission: Bitmap,
    permission_bytes: &[u8],
    revocation: Option<Bitmap>,
    revocation_bytes: &[u8],
    cursor: usize,
) -> Result<Offering, RefusedOffer>
    ensures refused { offer_failure result ≡ first_failed
        (offer_checks (Some permission) permission_bytes.now revocation revocation_bytes.now cursor) }
    ensures offering { IfOk result (λ o. o ≡
        offered_of (Some permission) permission_bytes.now revocation revocation_bytes.now cursor) }
    ensures state { IfErr result (λ e. e.cursor ≡ cursor) }
    ensures bound { windows_in result ≤ most_windows (Some permission) }
{
    let found = next_and_not(
        permission,
        permission_bytes,
        revocation,
        revocation_bytes,
        cursor,
    )
    .map_err(|refusal| RefusedOffer { refusal, cursor })?;
    let next = match found.position {
        Some(truck) => truck + 1,
        None => cursor,
    };
    Ok(Offering {
        truck: found.position,
        cursor: next,
        windows: found.windows,
    })
}

// Makes an offer without a permission mask: none. A search over the revocation mask makes its checks; what it finds is not used.
#[tactic(auto, unfolding(crate::specs::Offer::offered_of))]
fn offer_none(
    permission_bytes: &[u8],
    revocation: Option<Bitmap>,
    revocation_bytes: &[u8],
    cursor: usize,
) -> Result<Offering, RefusedOffer>
    ensures refused { offer_failure result ≡ first_failed
        (offer_checks None permission_bytes.now revocation revocation_bytes.now cursor) }
    ensures offering { IfOk result (λ o. o ≡
        offered_of None permission_bytes.now revocation revocation_bytes.now cursor) }
    ensures state { IfErr result (λ e. e.cursor ≡ cursor) }
    ensures bound { windows_in result ≤ most_windows None }
{
    if let Some(m) = revocation {
        let search = next_and_not(m, revocation_bytes, None, permission_bytes, 0);
        search.map_err(|refusal| RefusedOffer { refusal, cursor })?;
    }
    Ok(Offering {
        truck: None,
        cursor,
        windows: 0,
    })
}
