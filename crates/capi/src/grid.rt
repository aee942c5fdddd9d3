//! Exported to C and Rust: a mask as a grid of rows and columns: flag r * columns + c is row r, column c. Neither number is a length: check
//! 1 is not made of them. Their product is exact: no two numbers wrap to a mask's length.
#![tactic(auto, using(masks::proofs::refusal::ClauseLaws::answered, masks::proofs::refusal::ClauseLaws::answered_back, masks::proofs::refusal::ClauseLaws::written), unfolding(grids::specs::equations::Columns::grid_column_of, grids::specs::equations::Columns::grid_column_bytes, grids::specs::equations::Columns::grid_column_zeros_of, grids::specs::equations::Columns::grid_column_zeros_over, grids::specs::equations::Rows::grid_row_of, grids::specs::equations::Rows::grid_row_zeros_of, grids::specs::equations::Rows::grid_row_zeros_over, grids::specs::equations::Transpose::grid_transpose_of, grids::specs::equations::Transpose::grid_transpose_bytes))]

ghost use Rattle.std.specs.Prelude.{◌≡◌, length as list_length};
ghost use Rattle.grids.specs.equations.Columns.{grid_column_bytes, grid_column_of};
ghost use Rattle.grids.specs.equations.Columns.{grid_column_zeros_of, grid_column_zeros_over};
ghost use Rattle.grids.specs.equations.Rows.{grid_row_of, grid_row_zeros_of, grid_row_zeros_over};
ghost use Rattle.grids.specs.equations.Transpose.{grid_transpose_bytes, grid_transpose_of};
ghost use Rattle.capi.specs.Answers.{as_mask, as_number, as_same_mask};
ghost use Rattle.capi.specs.Records.{mask_in};

use crate::answers::{MaskAnswer, NumberAnswer};
use crate::mask::sliced_out;
use crate::records::Mask;
use grids::columns::{grid_column, grid_column_zeros};
use grids::rows::{grid_row, grid_row_zeros};
use grids::transpose::grid_transpose;

/// Returns the mask of row `row`, over the same bytes: what pw_slice returns for the `columns` flags that start at flag row * columns.
/// Refusal 12 means that rows * columns is not the length of `mask`, 6 that `row` is not below `rows`. The start of a row is put to check 1
/// only if there is such a row.
///
/// ```
/// use poruwhina::calls::{grid_row, try_new};
///
/// let mask = try_new(&[0x2D], 0, 6).mask; // 1,0,1 and 1,0,1
/// let row = grid_row(mask, &[0x2D], 2, 3, 1).mask;
/// assert_eq!((row.start, row.length), (3, 3));
/// assert_eq!(grid_row(mask, &[0x2D], 2, 3, 2).refusal, 6);
/// assert_eq!(grid_row(mask, &[0x2D], 2, 4, 2).refusal, 12);
/// ```
#[unsafe(no_mangle)]
pub extern "C" fn pw_grid_row(
    mask: Mask,
    bytes: &[u8],
    rows: usize,
    columns: usize,
    row: usize,
) -> MaskAnswer
    ensures { result ≡ as_same_mask mask (grid_row_of (mask_in mask) bytes.now rows columns row) }
{
    sliced_out(mask, grid_row(mask.into(), bytes, rows, columns, row))
}

/// Writes the frozen bytes of column `column`, of `rows` flags, at the start of `out` and returns the mask over them. Its zero count is
/// unknown, or known as 0 if there are no rows; its serial is that of `mask`. Refusal 12 means that rows * columns is not the length of
/// `mask`, 6 that `column` is not below `columns`.
///
/// ```
/// use poruwhina::calls::{grid_column, try_new};
///
/// let mut out = [0xFF; 9];
/// let column = grid_column(try_new(&[0x2D], 0, 6).mask, &[0x2D], 3, 2, 1, &mut out).mask; // 1,0 and 1,1 and 0,1
/// assert_eq!((column.start, column.length, column.known), (0, 3, 0));
/// assert_eq!((out[0], out[8]), (0x06, 0xFF));
/// ```
#[unsafe(no_mangle)]
pub extern "C" fn pw_grid_column(
    mask: Mask,
    bytes: &[u8],
    rows: usize,
    columns: usize,
    column: usize,
    out: &mut [u8],
) -> MaskAnswer
    ensures answer { result ≡
        as_mask (grid_column_of (mask_in mask) bytes.now rows columns column (list_length out.old)) }
    ensures bytes { out.new ≡ grid_column_bytes (mask_in mask) bytes.now rows columns column out.old }
{
    grid_column(mask.into(), bytes, rows, columns, column, out).into()
}

/// Writes the frozen bytes of the grid with rows and columns exchanged at the start of `out`, with flag r * columns + c of `mask` as
/// flag c * rows + r, and returns the mask over them. Its zero count is unknown, or known as 0 if there are no flags; its serial is that of
/// `mask`. Refusal 12 means that rows * columns is not the length of `mask`.
///
/// ```
/// use poruwhina::calls::{grid_transpose, try_new};
///
/// let (mut out, mut back) = ([0; 8], [0; 8]);
/// let transposed = grid_transpose(try_new(&[0x2D], 0, 6).mask, &[0x2D], 3, 2, &mut out).mask; // 1,1,0 and 0,1,1
/// assert_eq!((transposed.length, out[0]), (6, 0x33));
/// grid_transpose(transposed, &out, 2, 3, &mut back);
/// assert_eq!(back[0], 0x2D);
/// ```
#[unsafe(no_mangle)]
pub extern "C" fn pw_grid_transpose(
    mask: Mask,
    bytes: &[u8],
    rows: usize,
    columns: usize,
    out: &mut [u8],
) -> MaskAnswer
    ensures answer { result ≡
        as_mask (grid_transpose_of (mask_in mask) bytes.now rows columns (list_length out.old)) }
    ensures bytes { out.new ≡ grid_transpose_bytes (mask_in mask) bytes.now rows columns out.old }
{
    grid_transpose(mask.into(), bytes, rows, columns, out).into()
}

/// Writes the number of zeros of each row at the start of `counts` and returns how many counts are written, `rows`; the rest of `counts` is
/// unchanged. Refusal 12 means that rows * columns is not the length of `mask`, 9 that `counts` has fewer than `rows` places.
///
/// ```
/// use poruwhina::calls::{grid_row_zeros, try_new};
///
/// let mut counts = [9; 4];
/// let answer = grid_row_zeros(try_new(&[0x2D], 0, 6).mask, &[0x2D], 3, 2, &mut counts);
/// assert_eq!((answer.value, counts), (3, [1, 0, 1, 9]));
/// ```
#[unsafe(no_mangle)]
pub extern "C" fn pw_grid_row_zeros(
    mask: Mask,
    bytes: &[u8],
    rows: usize,
    columns: usize,
    counts: &mut [u32],
) -> NumberAnswer
    ensures answer { result ≡
        as_number (grid_row_zeros_of (mask_in mask) bytes.now rows columns (list_length counts.old)) }
    ensures counts { counts.new ≡ grid_row_zeros_over (mask_in mask) bytes.now rows columns counts.old }
{
    grid_row_zeros(mask.into(), bytes, rows, columns, counts).into()
}

/// Writes the number of zeros of each column at the start of `counts` and returns how many counts are written, `columns`; the rest of
/// `counts` is unchanged. Refusal 12 means that rows * columns is not the length of `mask`, 9 that `counts` has fewer than `columns`
/// places.
///
/// ```
/// use poruwhina::calls::{grid_column_zeros, try_new};
///
/// let mut counts = [9; 4];
/// let answer = grid_column_zeros(try_new(&[0x2D], 0, 6).mask, &[0x2D], 3, 2, &mut counts);
/// assert_eq!((answer.value, counts), (2, [1, 1, 9, 9]));
/// assert_eq!(grid_column_zeros(try_new(&[0x2D], 0, 6).mask, &[0x2D], 3, 2, &mut []).refusal, 9);
/// ```
#[unsafe(no_mangle)]
pub extern "C" fn pw_grid_column_zeros(
    mask: Mask,
    bytes: &[u8],
    rows: usize,
    columns: usize,
    counts: &mut [u32],
) -> NumberAnswer
    ensures answer { result ≡
        as_number (grid_column_zeros_of (mask_in mask) bytes.now rows columns (list_length counts.old)) }
    ensures counts { counts.new ≡ grid_column_zeros_over (mask_in mask) bytes.now rows columns counts.old }
{
    grid_column_zeros(mask.into(), bytes, rows, columns, counts).into()
}
