//! A mask read as a grid of rows and columns: flag r * columns + c is the one of row r, column c. One row, one column, the grid with rows
//! and columns exchanged, and the zeros of each row and of each column.
//!
//! Rows and columns may be any numbers: their product is exact, so that it is the mask's length only if there are as many flags. A grid may
//! have no rows or no columns.
#![tactic(auto)]

mod column_zeros;
pub mod columns;
pub mod grid;
mod loads;
pub mod rows;
pub mod transpose;
