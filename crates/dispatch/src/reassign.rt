//! Whether a truck may be reassigned: its flag is set in the permission mask, and not in the revocation mask. Either mask may be absent;
//! with no permission mask no truck may be reassigned.
//!
//! This crate uses only combinations and searches of masks, which `tests/dispatch_calls.py` checks in its sources. A mask and its bytes are
//! two parameters, as in the calls of masks: a `Bitmap` holds no bytes, and the caller lends them separately, also if the mask is absent.
//! No struct joins them: it would be made at each call and taken apart for `and_not_at` again.
ghost use Rattle.std.specs.Prelude.{◌≡◌, IfOk};
ghost use Rattle.masks.specs.AtIndex.{and_not_at_checks};
ghost use Rattle.masks.specs.Checks.{first_failed};
ghost use Rattle.masks.specs.Refusal.{failure_of};
ghost use Rattle.dispatch.specs.Reassign.{reassignable};

use masks::at_index::and_not_at;
use masks::bitmap::Bitmap;
use masks::refusal::Refusal;

/// Returns whether truck number `truck` may be reassigned. If the permission mask is absent, the answer is no for every truck; an absent
/// mask of `TrueIdxIter` and the none of `into_opt_validity` mean all ones. An absent revocation mask takes nothing away. Refuses with 6 if
/// `truck` is not below the length of a mask that is present. The checks are those of `and_not_at`, so checks 1, 2, 3 and 6 apply to a
/// revocation mask also without a permission mask.
pub fn may_reassign(
    permission: Option<Bitmap>,
    permission_bytes: &[u8],
    revocation: Option<Bitmap>,
    revocation_bytes: &[u8],
    truck: usize,
) -> Result<bool, Refusal>
    ensures refused { failure_of result ≡ first_failed
        (and_not_at_checks permission permission_bytes.now revocation revocation_bytes.now truck) }
    ensures flag { IfOk result (λ x. x ≡ reassignable
        permission permission_bytes.now revocation revocation_bytes.now truck) }
{
    let flag = and_not_at(
        permission,
        permission_bytes,
        revocation,
        revocation_bytes,
        truck,
    )?;
    Ok(permission.is_some() && flag)
}
