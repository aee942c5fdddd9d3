//! A grid with its rows and columns exchanged.
ghost use Rattle.std.specs.Prelude.{◌≡◌, ◌+◌, ◌*◌, ◌<◌, ◌≤◌, length, IfOk, OnOk, OnErr};
ghost use Rattle.words.specs.Flags.{flags_of, over};
ghost use Rattle.words.specs.Loops.{stretch, whole_words};
ghost use Rattle.masks.specs.Checks.{first_failed, limit};
ghost use Rattle.masks.specs.Frozen.{with_frozen};
ghost use Rattle.masks.specs.Mask.{mask_flags, written_mask};
ghost use Rattle.masks.specs.Refusal.{failure_of};
ghost use Rattle.grids.specs.Grid.{transposed};
ghost use Rattle.grids.specs.Workers.{BlockJoined, RowsPut};
ghost use Rattle.grids.specs.Transpose.{transpose_checks};

use crate::grid::check_grid;
use crate::loads::load_rows;
use masks::bitmap::{Bitmap, written_mask};
use masks::checks::check_output;
use masks::refusal::Refusal;
use words::loops::{copy, fill};
use words::place::or_flags;
use words::transpose::transpose_block;

/// Writes the grid with rows and columns exchanged as frozen bytes to the start of `out`, and returns its mask: flag c * rows + r is flag
/// r * columns + c of the mask. Refuses with 12 if rows * columns is not the mask's length, with 9 if the output is too short.
pub fn grid_transpose(
    mask: Bitmap,
    bytes: &[u8],
    rows: usize,
    columns: usize,
    out: &mut [u8],
) -> Result<Bitmap, Refusal>
    ensures refused { failure_of result ≡ first_failed
        (transpose_checks mask bytes.now rows columns (length out.old)) }
    ensures mask { IfOk result (λ m. m ≡ written_mask mask mask.length) }
    ensures bytes { OnOk result (out.new ≡ with_frozen out.old
        (transposed (mask_flags mask bytes.now) rows columns)) }
    ensures unchanged { OnErr result (out.new ≡ out.old) }
{
    check_transpose(mask, bytes, rows, columns, out.len())?;
    write_transposed(bytes, mask.start, rows, columns, out);
    Ok(written_mask(mask, mask.length))
}

// Makes the checks of the transposed grid: those of the grid, and 9.
fn check_transpose(
    mask: Bitmap,
    bytes: &[u8],
    rows: usize,
    columns: usize,
    size: usize,
) -> Result<(), Refusal>
    ensures { failure_of result ≡ first_failed (transpose_checks mask bytes.now rows columns size) }
{
    check_grid(mask, bytes, rows, columns)?;
    check_output(mask.length, size)
}

// Writes the transposed grid of the flags that start at `start` of `bytes`: a copy if it has one row or one column, else by blocks of 64
// rows and 64 columns, whose flags are joined to zeros.
fn write_transposed(bytes: &[u8], start: usize, rows: usize, columns: usize, out: &mut [u8])
    requires { (start ≤ limit) × (rows * columns ≤ limit) }
    ensures { flags_of out.new ≡ over (flags_of out.old) (whole_words
        (transposed (stretch bytes.now start (rows * columns)) rows columns)) }
{
    let n = rows * columns;
    if n == 0 {
        return;
    }
    if rows == 1 || columns == 1 {
        copy(bytes, start, n, out);
        return;
    }
    fill(false, n, out);
    for band in 0..columns.div_ceil(64) {
        join_band(bytes, start, rows, columns, 64 * band, out);
    }
}

// Joins the flags of the 64 columns from `column` on, block by block.
fn join_band(bytes: &[u8], start: usize, rows: usize, columns: usize, column: usize, out: &mut [u8])
    requires { (start ≤ limit) × ((rows * columns ≤ limit) × (column < columns)) }
    ensures { BlockJoined (stretch bytes.now start (rows * columns)) rows columns
        0 rows column (column + 64) (flags_of out.old) (flags_of out.new) }
{
    for band in 0..rows.div_ceil(64) {
        join_block(bytes, start, rows, columns, 64 * band, column, out);
    }
}

// Joins the flags of the 64 rows from `row` on and the 64 columns from `column` on: loads the rows as words, transposes them, and puts the
// columns at their places.
fn join_block(
    bytes: &[u8],
    start: usize,
    rows: usize,
    columns: usize,
    row: usize,
    column: usize,
    out: &mut [u8],
)
    requires { (start ≤ limit) × ((rows * columns ≤ limit) × ((row < rows) × (column < columns))) }
    ensures { BlockJoined (stretch bytes.now start (rows * columns)) rows columns
        row (row + 64) column (column + 64) (flags_of out.old) (flags_of out.new) }
{
    let mut block: [u64; 64] = [0; 64];
    let height = (rows - row).min(64);
    let width = (columns - column).min(64);
    load_rows(
        bytes,
        start + (row * columns + column),
        columns,
        height,
        &mut block,
    );
    transpose_block(&mut block);
    put_rows(&block, width, column * rows + row, rows, out);
}

// Joins the first `width` words of the block to the flags at `first`, first + distance, ...
fn put_rows(block: &[u64; 64], width: usize, first: usize, distance: usize, out: &mut [u8])
    requires { (first ≤ 2 * limit) × ((width ≤ 64) × (width * distance ≤ limit)) }
    ensures { RowsPut block.now first distance width (flags_of out.old) (flags_of out.new) }
{
    for i in 0..width {
        or_flags(out, first + i * distance, block[i]);
    }
}
