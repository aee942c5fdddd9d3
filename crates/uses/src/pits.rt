//! The trucks of a pit that an operator may reassign: a pit is a run of trucks, or a row of a grid of pits.
ghost use Rattle.std.specs.Prelude.{◌≡◌, ℕ, ◌+◌, ◌*◌, ◌<◌, ◌≤◌, ◌&&◌, not, false, IfOk, get_or};
ghost use Rattle.masks.specs.Mask.{mask_flags};

use grids::rows::grid_row;
use masks::bitmap::Bitmap;
use masks::bitmap_ops::and_not;
use masks::refusal::Refusal;

/// Returns the mask of the trucks `first` to `first + count` that are permitted and not revoked, over `out`.
pub fn pit_of(
    permission: Bitmap,
    permission_bytes: &[u8],
    revocation: Bitmap,
    revocation_bytes: &[u8],
    first: usize,
    count: usize,
    out: &mut [u8],
) -> Result<Bitmap, Refusal>
    ensures length { IfOk result (λ m. m.length ≡ count) }
    ensures inside { IfOk result (λ m. first + count ≤ permission.length) }
    ensures each { IfOk result (λ m. (j : ℕ) → j < count →
        get_or (mask_flags m out.new) j false
        ≡ (get_or (mask_flags permission permission_bytes.now) (first + j) false
        && not (get_or (mask_flags revocation revocation_bytes.now) (first + j) false))) }
{
    let allowed = and_not(
        permission,
        permission_bytes,
        revocation,
        revocation_bytes,
        out,
    )?;
    let pit = allowed.slice(out, first, count)?;
    Ok(pit)
}

/// Returns the mask of the trucks of pit number `pit`, of as many pits of `trucks` trucks each as the mask has.
pub fn pit_in_grid(
    mask: Bitmap,
    bytes: &[u8],
    pits: usize,
    trucks: usize,
    pit: usize,
) -> Result<Bitmap, Refusal>
    ensures whole { IfOk result (λ m. pits * trucks ≡ mask.length) }
    ensures each { IfOk result (λ m. (j : ℕ) → j < trucks →
        get_or (mask_flags m bytes.now) j false
        ≡ get_or (mask_flags mask bytes.now) (pit * trucks + j) false) }
{
    let row = grid_row(mask, bytes, pits, trucks, pit)?;
    Ok(row)
}
