//! Ties each row of `GridRows` to its call, as `rows` does for those of masks: each function here makes one call of grids and nothing else.
#![tactic(auto, using(masks::proofs::refusal::ClauseLaws::answered, masks::proofs::refusal::ClauseLaws::answered_back, masks::proofs::refusal::ClauseLaws::written), unfolding(grids::specs::equations::Rows::grid_row_of, grids::specs::equations::Columns::grid_column_of, grids::specs::equations::Columns::grid_column_bytes, grids::specs::equations::Transpose::grid_transpose_of, grids::specs::equations::Transpose::grid_transpose_bytes))]

ghost use Rattle.std.specs.Prelude.{◌≡◌};
ghost use Rattle.masks.specs.equations.Answer.{answer, answer_back};
ghost use Rattle.histories.specs.GridRows.{grid_column_row, grid_row_row, grid_transpose_row};
ghost use Rattle.histories.specs.Rows.{one, with_bytes};

use grids::columns::grid_column;
use grids::rows::grid_row;
use grids::transpose::grid_transpose;
use masks::bitmap::Bitmap;
use masks::refusal::{Refusal, Refused};

/// Calls `grid_row`; answers as its row of the table does.
pub fn grid_row_row(
    mask: Bitmap,
    bytes: &[u8],
    rows: usize,
    columns: usize,
    row: usize,
) -> Result<Bitmap, Refused<Bitmap>>
    ensures { answer_back result ≡ (grid_row_row rows columns row).answer mask bytes.now }
{
    grid_row(mask, bytes, rows, columns, row)
}

/// Calls `grid_column`; answers and writes as its row of the table does.
pub fn grid_column_row(
    mask: Bitmap,
    bytes: &[u8],
    rows: usize,
    columns: usize,
    column: usize,
    out: &mut [u8],
) -> Result<Bitmap, Refusal>
    ensures answer { answer result ≡
        (grid_column_row rows columns column out.old).answer (one (with_bytes mask bytes.now)) }
    ensures bytes { out.new ≡
        (grid_column_row rows columns column out.old).bytes (one (with_bytes mask bytes.now)) }
{
    grid_column(mask, bytes, rows, columns, column, out)
}

/// Calls `grid_transpose`; answers and writes as its row of the table does.
pub fn grid_transpose_row(
    mask: Bitmap,
    bytes: &[u8],
    rows: usize,
    columns: usize,
    out: &mut [u8],
) -> Result<Bitmap, Refusal>
    ensures answer { answer result ≡
        (grid_transpose_row rows columns out.old).answer (one (with_bytes mask bytes.now)) }
    ensures bytes { out.new ≡
        (grid_transpose_row rows columns out.old).bytes (one (with_bytes mask bytes.now)) }
{
    grid_transpose(mask, bytes, rows, columns, out)
}
