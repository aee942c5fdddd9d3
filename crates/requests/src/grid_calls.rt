//! The calls that take a mask as a grid: after the mask's three numbers come its rows and its columns.
use crate::tokens::Answered;
use crate::{tokens, values};
use grids::columns::{grid_column, grid_column_zeros};
use grids::rows::{grid_row, grid_row_zeros};
use grids::transpose::grid_transpose;
use masks::bitmap::Bitmap;
use masks::refusal::Refused;
use notation::answer::Answer;
use notation::arguments::{Arguments, Serial};
use notation::call::GridCall;

pub(crate) fn row_answer(mask: Bitmap, a: &Arguments, x: &[u8]) -> Result<Bitmap, Refused<Bitmap>> {
    grid_row(mask, x, a.size(3), a.size(4), a.size(5))
}

pub(crate) fn grid_answer(
    to: &mut Answer,
    call: GridCall,
    a: &Arguments,
    x: &[u8],
    out: &mut [u8],
) -> Answered {
    let mask = values::mask(a, 0, Serial::First);
    let rows = a.size(3);
    let columns = a.size(4);
    tokens::answer(
        to,
        match call {
            GridCall::GridColumn => grid_column(mask, x, rows, columns, a.size(5), out),
            GridCall::GridTranspose => grid_transpose(mask, x, rows, columns, out),
        },
    )
}

pub(crate) fn row_zeros_answer(
    to: &mut Answer,
    a: &Arguments,
    x: &[u8],
    counts: &mut [u32],
) -> Answered {
    let mask = values::mask(a, 0, Serial::First);
    tokens::answer(to, grid_row_zeros(mask, x, a.size(3), a.size(4), counts))
}

pub(crate) fn column_zeros_answer(
    to: &mut Answer,
    a: &Arguments,
    x: &[u8],
    counts: &mut [u32],
) -> Answered {
    let mask = values::mask(a, 0, Serial::First);
    tokens::answer(to, grid_column_zeros(mask, x, a.size(3), a.size(4), counts))
}
