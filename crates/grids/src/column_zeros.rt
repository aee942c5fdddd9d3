//! The zeros of all columns, by bands of 64 columns: their rows are loaded as words, whose ones are counted by words' bit planes, at most
//! 511 words at a time.
ghost use Rattle.std.specs.Prelude.{◌≡◌, ℕ, ◌+◌, ◌-◌, ◌*◌, ◌<◌, ◌≤◌, min, length, get_or};
ghost use Rattle.words.specs.Flags.{flags_of, over};
ghost use Rattle.words.specs.Loops.{stretch};
ghost use Rattle.masks.specs.Checks.{limit};
ghost use Rattle.grids.specs.Grid.{column_zeros};
ghost use Rattle.grids.specs.Workers.{OnesOf, Renewed};

use crate::loads::load_rows;
use words::columns::column_counts;

// Writes the number of zeros of each column of a grid whose flags start at `start` of `bytes`.
pub(crate) fn write_column_zeros(
    bytes: &[u8],
    start: usize,
    rows: usize,
    columns: usize,
    counts: &mut [u32],
)
    requires { (start ≤ limit) × ((rows * columns ≤ limit) × (columns ≤ length counts.old)) }
    ensures { counts.new ≡ over counts.old
        (column_zeros (stretch bytes.now start (rows * columns)) rows columns) }
{
    let mut words: [u64; 511] = [0; 511];
    for band in 0..columns.div_ceil(64) {
        write_band(bytes, start, rows, columns, 64 * band, &mut words, counts);
    }
}

// Writes the zeros of the 64 columns from `column` on, or of those that are left.
fn write_band(
    bytes: &[u8],
    start: usize,
    rows: usize,
    columns: usize,
    column: usize,
    words: &mut [u64; 511],
    counts: &mut [u32],
)
    requires { (start ≤ limit) × ((rows * columns ≤ limit) × ((column < columns) × (columns ≤ length counts.old))) }
    ensures { Renewed (λ p. get_or (column_zeros (stretch bytes.now start (rows * columns)) rows columns) p 0)
        column (min columns (column + 64)) counts.old counts.new }
{
    let mut ones: [u32; 64] = [0; 64];
    count_band(bytes, start + column, rows, columns, words, &mut ones);
    write_zeros(&ones, rows, column, columns, counts);
}

// Counts the ones of the 64 columns whose first flags begin at `first`, at most 511 rows at a time.
fn count_band(
    bytes: &[u8],
    first: usize,
    rows: usize,
    columns: usize,
    words: &mut [u64; 511],
    ones: &mut [u32; 64],
)
    requires { (0 < rows → first ≤ 2 * limit) × ((rows * columns ≤ limit) × ((rows ≤ limit)
        × OnesOf (flags_of bytes.now) first columns 0 ones.old)) }
    ensures { OnesOf (flags_of bytes.now) first columns rows ones.new }
{
    for batch in 0..rows.div_ceil(511) {
        add_batch(bytes, first, rows, columns, 511 * batch, words, ones);
    }
}

// Adds the ones of the 511 rows from `row` on, or of those that are left.
fn add_batch(
    bytes: &[u8],
    first: usize,
    rows: usize,
    columns: usize,
    row: usize,
    words: &mut [u64; 511],
    ones: &mut [u32; 64],
)
    requires { (first ≤ 2 * limit) × ((rows * columns ≤ limit) × ((rows ≤ limit) × ((row < rows)
        × OnesOf (flags_of bytes.now) first columns row ones.old))) }
    ensures { OnesOf (flags_of bytes.now) first columns (min (row + 511) rows) ones.new }
{
    let height = (rows - row).min(511);
    load_rows(bytes, first + row * columns, columns, height, words);
    let part = column_counts(&words[..height]);
    add_counts(&part, ones);
}

// Adds 64 numbers to 64 others.
fn add_counts(part: &[u32; 64], ones: &mut [u32; 64])
    requires { (c : ℕ) → c < 64 → get_or ones.old c 0 + get_or part.now c 0 ≤ 2 * limit }
    ensures { (c : ℕ) → c < 64 → get_or ones.new c 0 ≡ get_or ones.old c 0 + get_or part.now c 0 }
{
    for c in 0..64 {
        ones[c] += part[c];
    }
}

// Writes the zeros of the columns from `column` on, of which `ones` has the ones.
fn write_zeros(ones: &[u32; 64], rows: usize, column: usize, columns: usize, counts: &mut [u32])
    requires { ((c : ℕ) → c < 64 → get_or ones.now c 0 ≤ rows) × ((rows ≤ limit) × ((column < columns) × (columns ≤ length counts.old))) }
    ensures { Renewed (λ p. rows - get_or ones.now (p - column) 0) column (min columns (column + 64)) counts.old counts.new }
{
    let width = (columns - column).min(64);
    for c in 0..width {
        // to u32: there is no From; a number within the limit fits
        counts[column + c] = rows as u32 - ones[c];
    }
}
