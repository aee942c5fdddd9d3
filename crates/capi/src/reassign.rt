//! Exported to C and Rust: dispatch.
#![tactic(auto, using(masks::proofs::refusal::ClauseLaws::answered), unfolding(dispatch::specs::equations::Reassign::may_reassign))]

ghost use Rattle.std.specs.Prelude.{◌≡◌};
ghost use Rattle.dispatch.specs.equations.Reassign.{may_reassign};
ghost use Rattle.capi.specs.Answers.{as_flag};
ghost use Rattle.capi.specs.Records.{optional_in};

use crate::answers::FlagAnswer;
use crate::records::{Mask, optional_in};
use dispatch::reassign::may_reassign;

/// Returns whether truck number `truck` may be reassigned: its flag is set in the permission mask and not in the revocation mask. If
/// `permitted` is false there is no permission mask, and the answer is no for every truck; if `revoked` is false there is no revocation
/// mask, and no truck is revoked. The record and bytes of an absent mask are not read. Refusal 5 occurs only with both masks; without any
/// mask nothing is refused. No permission mask is the opposite of no mask from pw_into_opt_validity or in pw_true_idx_new, which means
/// all ones: end the builder of a permission mask with pw_freeze.
///
/// ```
/// use poruwhina::calls::{may_reassign, try_new};
///
/// let mask = try_new(&[0], 0, 6).mask;
/// assert!(may_reassign(true, mask, &[0x2D], true, mask, &[0x01], 2).value);
/// assert!(!may_reassign(true, mask, &[0x2D], true, mask, &[0x01], 0).value);
/// assert_eq!(may_reassign(true, mask, &[0x2D], true, mask, &[0x01], 6).refusal, 6);
/// ```
#[unsafe(no_mangle)]
pub extern "C" fn pw_may_reassign(
    permitted: bool,
    permission: Mask,
    permission_bytes: &[u8],
    revoked: bool,
    revocation: Mask,
    revocation_bytes: &[u8],
    truck: usize,
) -> FlagAnswer
    ensures { result ≡
        as_flag (may_reassign (optional_in permitted permission) permission_bytes.now (optional_in revoked revocation)
        revocation_bytes.now truck) }
{
    may_reassign(
        optional_in(permitted, permission),
        permission_bytes,
        optional_in(revoked, revocation),
        revocation_bytes,
        truck,
    )
    .into()
}
