//! The checks that the calls on a grid share.
ghost use Rattle.std.specs.Prelude.{◌≡◌};
ghost use Rattle.masks.specs.Checks.{check, first_failed};
ghost use Rattle.masks.specs.Refusal.{failure_of};
ghost use Rattle.grids.specs.Grid.{counts_checks, grid_checks, is_grid};

use masks::bitmap::Bitmap;
use masks::checks::check_mask;
use masks::refusal::{Refusal, check};

// Returns whether rows * columns, exact, is the length of the mask.
pub(crate) fn is_grid(rows: usize, columns: usize, mask: Bitmap) -> bool
    ensures { result ≡ is_grid rows columns mask }
{
    rows.checked_mul(columns) == Some(mask.length)
}

// Makes checks 1 to 3 of a mask, and check 12: rows * columns, exact, is its length.
pub(crate) fn check_grid(
    mask: Bitmap,
    bytes: &[u8],
    rows: usize,
    columns: usize,
) -> Result<(), Refusal>
    ensures refused { failure_of result ≡ first_failed (grid_checks mask bytes.now rows columns) }
{
    check_mask(mask, bytes)?;
    check(Refusal::NotAGrid, is_grid(rows, columns, mask))
}

// Makes the checks of a grid, and check 9 of `places` places for n counts.
pub(crate) fn check_counts(
    mask: Bitmap,
    bytes: &[u8],
    rows: usize,
    columns: usize,
    n: usize,
    places: usize,
) -> Result<(), Refusal>
    ensures { failure_of result ≡ first_failed
        (counts_checks mask bytes.now rows columns n places) }
{
    check_grid(mask, bytes, rows, columns)?;
    check(Refusal::OutputTooSmall, n <= places)
}
