//! Exported to C and Rust: the next truck that dispatch offers.
#![tactic(auto, using(dispatch::proofs::offer::OfferLaws::offer_answered), unfolding(dispatch::specs::equations::Offer::offer_of))]

ghost use Rattle.std.specs.Prelude.{◌≡◌};
ghost use Rattle.dispatch.specs.equations.Offer.{offer_answer, offer_of};
ghost use Rattle.capi.specs.Answers.{as_offer};
ghost use Rattle.capi.specs.Records.{optional_in};

use crate::answers::OfferAnswer;
use crate::records::{Mask, optional_in};
use dispatch::offer::{Offering, RefusedOffer, offer};

#[tactic(auto, unfolding(crate::specs::Answers::as_offer))]
impl From<Result<Offering, RefusedOffer>> for OfferAnswer {
    ghost from_gives = { λ r a. a ≡ as_offer (offer_answer r) };

    fn from(r: Result<Offering, RefusedOffer>) -> OfferAnswer {
        match r {
            Ok(o) => OfferAnswer {
                refusal: 0,
                found: o.truck.is_some(),
                truck: o.truck.unwrap_or(0),
                cursor: o.cursor,
                windows: o.windows,
            },
            Err(e) => OfferAnswer {
                refusal: e.refusal.into(),
                cursor: e.cursor,
                ..OfferAnswer::default()
            },
        }
    }
}

/// Returns the first truck at or after `cursor` that is permitted and not revoked, else the first such truck from 0, and in `cursor` the
/// number after that truck, for the next call. If there is no such truck, `found` is false and `cursor` is unchanged. `windows` counts
/// windows of 32 flags as pw_next_and_not does, at most ceil(length / 32) + 1. If `permitted` is false there is no permission mask: no
/// truck is found, and `windows` is 0. If `revoked` is false there is no revocation mask, and no truck is revoked. The record and bytes
/// of an absent mask are not read. Refusal 5 occurs only with both masks; 6 only with a permission mask, if `cursor` is above its length.
///
/// ```
/// use poruwhina::calls::{offer, try_new};
///
/// let mask = try_new(&[0], 0, 6).mask;
/// let first = offer(true, mask, &[0x2D], true, mask, &[0x04], 1); // 0, 2, 3, 5 permitted, 2 revoked
/// assert_eq!((first.found, first.truck, first.cursor, first.windows), (true, 3, 4, 1));
/// assert_eq!(offer(true, mask, &[0x2D], true, mask, &[0x04], 6).truck, 0); // round to truck 0
/// assert!(!offer(false, mask, &[], true, mask, &[0x04], 9).found); // no permission mask
/// assert_eq!(offer(true, mask, &[0x2D], false, mask, &[], 7).refusal, 6);
/// ```
#[unsafe(no_mangle)]
pub extern "C" fn pw_offer(
    permitted: bool,
    permission: Mask,
    permission_bytes: &[u8],
    revoked: bool,
    revocation: Mask,
    revocation_bytes: &[u8],
    cursor: usize,
) -> OfferAnswer
    ensures { result ≡
        as_offer (offer_of (optional_in permitted permission) permission_bytes.now (optional_in revoked revocation)
        revocation_bytes.now cursor) }
{
    offer(
        optional_in(permitted, permission),
        permission_bytes,
        optional_in(revoked, revocation),
        revocation_bytes,
        cursor,
    )
    .into()
}
