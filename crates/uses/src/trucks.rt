//! Whether a truck is surely free, for callers that treat a refusal as a no.
ghost use Rattle.std.specs.Prelude.{◌≡◌, true, false, IsTrue, None};
ghost use Rattle.masks.specs.AtIndex.{flag_or};

use dispatch::reassign::may_reassign;
use masks::bitmap::Bitmap;

/// Returns whether a truck is surely free: a refusal is a no, and so is a missing permission mask.
pub fn is_free(
    permission: Option<Bitmap>,
    permission_bytes: &[u8],
    revocation: Option<Bitmap>,
    revocation_bytes: &[u8],
    truck: usize,
) -> bool
    ensures no_mask { permission ≡ None → result ≡ false }
    ensures permitted { IsTrue result → flag_or false permission permission_bytes.now truck ≡ true }
    ensures kept { IsTrue result → flag_or false revocation revocation_bytes.now truck ≡ false }
{
    match may_reassign(
        permission,
        permission_bytes,
        revocation,
        revocation_bytes,
        truck,
    ) {
        Ok(free) => free,
        Err(_) => false,
    }
}
