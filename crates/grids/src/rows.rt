//! The rows of a grid: one row as a mask, and the zeros of each.
ghost use Rattle.std.specs.Prelude.{◌≡◌, ◌+◌, ◌*◌, ◌≤◌, length, IfOk, IfErr, OnOk, OnErr};
ghost use Rattle.words.specs.Flags.{over};
ghost use Rattle.words.specs.Loops.{stretch};
ghost use Rattle.masks.specs.Checks.{first_failed, limit};
ghost use Rattle.masks.specs.Mask.{mask_flags, sliced_mask};
ghost use Rattle.masks.specs.Refusal.{failure_back, failure_of};
ghost use Rattle.grids.specs.Grid.{counts_checks, row_zeros};
ghost use Rattle.grids.specs.Rows.{row_checks};

use crate::grid::{check_counts, is_grid};
use masks::bitmap::Bitmap;
use masks::checks::check_mask;
use masks::refusal::{Refusal, Refused};
use words::counts::count_ones;
use words::word::{ones_below, word_from};

/// Returns row `row` of a mask of rows * columns flags as `slice` returns it: `columns` flags starting at row * columns. Refuses with 12 if
/// rows * columns is not the mask's length, with 6 if `row` is not below `rows`, with 1 if the start of the row in the bytes is above the
/// flag limit.
pub fn grid_row(
    mask: Bitmap,
    bytes: &[u8],
    rows: usize,
    columns: usize,
    row: usize,
) -> Result<Bitmap, Refused<Bitmap>>
    ensures refused { failure_back result ≡ first_failed
        (row_checks mask bytes.now rows columns row) }
    ensures mask { IfOk result (λ m. m ≡ sliced_mask mask bytes.now (row * columns) columns) }
    ensures state { IfErr result (λ e. e.state ≡ mask) }
{
    let grid = is_grid(rows, columns, mask);
    // `slice` makes all checks that are left of a row of the grid: so a known count is counted once.
    if grid && row < rows {
        return mask.slice(bytes, row * columns, columns);
    }
    let refusal = match check_mask(mask, bytes) {
        Err(refusal) => refusal,
        Ok(()) if grid => Refusal::OutsideMask,
        Ok(()) => Refusal::NotAGrid,
    };
    Err(Refused {
        refusal,
        state: mask,
    })
}

/// Writes the number of zeros of each row to the start of `counts`, and returns how many rows there are. Refuses with 12 if rows * columns
/// is not the mask's length, with 9 if `counts` has fewer than `rows` places.
pub fn grid_row_zeros(
    mask: Bitmap,
    bytes: &[u8],
    rows: usize,
    columns: usize,
    counts: &mut [u32],
) -> Result<usize, Refusal>
    ensures refused { failure_of result ≡ first_failed
        (counts_checks mask bytes.now rows columns rows (length counts.old)) }
    ensures number { IfOk result (λ n. n ≡ rows) }
    ensures counts { OnOk result (counts.new ≡ over counts.old
        (row_zeros (mask_flags mask bytes.now) rows columns)) }
    ensures unchanged { OnErr result (counts.new ≡ counts.old) }
{
    check_counts(mask, bytes, rows, columns, rows, counts.len())?;
    write_row_zeros(bytes, mask.start, rows, columns, counts);
    Ok(rows)
}

// Writes the number of zeros of each row of a grid whose flags start at `start` of `bytes`.
fn write_row_zeros(bytes: &[u8], start: usize, rows: usize, columns: usize, counts: &mut [u32])
    requires { (start ≤ limit) × ((rows * columns ≤ limit) × (rows ≤ length counts.old)) }
    ensures { counts.new ≡ over counts.old
        (row_zeros (stretch bytes.now start (rows * columns)) rows columns) }
{
    if columns <= 64 {
        write_short_rows(bytes, start, rows, columns, counts);
        return;
    }
    for row in 0..rows {
        let ones = count_ones(bytes, start + row * columns, columns);
        counts[row] = (columns - ones) as u32;
    }
}

// Does the same for rows of at most 64 flags, each read as one word.
fn write_short_rows(bytes: &[u8], start: usize, rows: usize, columns: usize, counts: &mut [u32])
    requires { (start ≤ limit) × ((rows * columns ≤ limit) × ((columns ≤ 64) × (rows ≤ length counts.old))) }
    ensures { counts.new ≡ over counts.old
        (row_zeros (stretch bytes.now start (rows * columns)) rows columns) }
{
    let mut at = start;
    for row in 0..rows {
        let ones = ones_below(word_from(bytes, at), columns);
        let zeros = columns - ones;
        // to u32: there is no From; a number of at most 64 fits
        counts[row] = zeros as u32;
        at += columns;
    }
}
