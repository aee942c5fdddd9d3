//! The columns of a grid: one column as a mask, and the zeros of each.
ghost use Rattle.std.specs.Prelude.{◌≡◌, ◌+◌, ◌*◌, ◌<◌, ◌≤◌, length, IfOk, OnOk, OnErr};
ghost use Rattle.words.specs.Flags.{flags_of, over, window, word_flags};
ghost use Rattle.words.specs.Loops.{stretch, whole_words};
ghost use Rattle.masks.specs.Checks.{first_failed, limit};
ghost use Rattle.masks.specs.Frozen.{with_frozen};
ghost use Rattle.masks.specs.Mask.{mask_flags, written_mask};
ghost use Rattle.masks.specs.Refusal.{failure_of};
ghost use Rattle.grids.specs.Columns.{column_checks};
ghost use Rattle.grids.specs.Workers.{every};
ghost use Rattle.grids.specs.Grid.{column_flags, column_zeros, counts_checks};

use crate::column_zeros::write_column_zeros;
use crate::grid::{check_counts, check_grid};
use masks::bitmap::{Bitmap, written_mask};
use masks::checks::check_output;
use masks::refusal::{Refusal, check};
use words::loops::copy;
use words::word::{concat_low, constant_word, flag_at, store_at};

/// Writes column `column` of a mask of rows * columns flags as frozen bytes to the start of `out`, and returns the mask of its `rows`
/// flags. Refuses with 12 if rows * columns is not the mask's length, with 6 if `column` is not below `columns`, with 9 if the output is
/// too short.
pub fn grid_column(
    mask: Bitmap,
    bytes: &[u8],
    rows: usize,
    columns: usize,
    column: usize,
    out: &mut [u8],
) -> Result<Bitmap, Refusal>
    ensures refused { failure_of result ≡ first_failed
        (column_checks mask bytes.now rows columns column (length out.old)) }
    ensures mask { IfOk result (λ m. m ≡ written_mask mask rows) }
    ensures bytes { OnOk result (out.new ≡ with_frozen out.old
        (column_flags (mask_flags mask bytes.now) rows columns column)) }
    ensures unchanged { OnErr result (out.new ≡ out.old) }
{
    check_column(mask, bytes, rows, columns, column, out.len())?;
    write_column(bytes, mask.start, rows, columns, column, out);
    Ok(written_mask(mask, rows))
}

// Makes the checks of one column: those of the grid, 6 and 9.
fn check_column(
    mask: Bitmap,
    bytes: &[u8],
    rows: usize,
    columns: usize,
    column: usize,
    size: usize,
) -> Result<(), Refusal>
    ensures { failure_of result ≡ first_failed
        (column_checks mask bytes.now rows columns column size) }
{
    check_grid(mask, bytes, rows, columns)?;
    check(Refusal::OutsideMask, column < columns)?;
    check_output(rows, size)
}

// Writes a column of a grid whose flags start at `start` of `bytes`. That of a grid with one column is a copy.
fn write_column(
    bytes: &[u8],
    start: usize,
    rows: usize,
    columns: usize,
    column: usize,
    out: &mut [u8],
)
    requires { (start ≤ limit) × ((rows * columns ≤ limit) × (column < columns)) }
    ensures { flags_of out.new ≡ over (flags_of out.old) (whole_words
        (column_flags (stretch bytes.now start (rows * columns)) rows columns column)) }
{
    if columns == 1 {
        copy(bytes, start, rows, out);
        return;
    }
    for i in 0..rows.div_ceil(64) {
        let n = (rows - 64 * i).min(64);
        let word = gather_every(bytes, start + column, columns, 64 * i, n);
        store_at(out, 8 * i, word);
    }
}

// Gathers n of the flags first, first + step, .. into a word, from number `from` on. The last one first: each flag then enters the word at
// its low end.
fn gather_every(bytes: &[u8], first: usize, step: usize, from: usize, n: usize) -> u64
    requires { (n ≤ 64) × ((from + n ≤ limit) × (first + (from + n) * step ≤ 4 * limit)) }
    ensures { word_flags result ≡ window (every (flags_of bytes.now) first step from n) 0 64 }
{
    let mut w: u64 = 0;
    for j in 0..n {
        let flag = flag_at(bytes, first + (from + (n - 1 - j)) * step);
        w = concat_low(constant_word(flag), 1, w);
    }
    w
}

/// Writes the number of zeros of each column to the start of `counts`, and returns how many columns there are. Refuses with 12 if
/// rows * columns is not the mask's length, with 9 if `counts` has fewer than `columns` places.
pub fn grid_column_zeros(
    mask: Bitmap,
    bytes: &[u8],
    rows: usize,
    columns: usize,
    counts: &mut [u32],
) -> Result<usize, Refusal>
    ensures refused { failure_of result ≡ first_failed
        (counts_checks mask bytes.now rows columns columns (length counts.old)) }
    ensures number { IfOk result (λ n. n ≡ columns) }
    ensures counts { OnOk result (counts.new ≡ over counts.old
        (column_zeros (mask_flags mask bytes.now) rows columns)) }
    ensures unchanged { OnErr result (counts.new ≡ counts.old) }
{
    check_counts(mask, bytes, rows, columns, columns, counts.len())?;
    write_column_zeros(bytes, mask.start, rows, columns, counts);
    Ok(columns)
}
