//! Histories of calls, their reference lists, and the theorem that a mask means the same however it was built (specs/ and proofs/). The
//! code here only ties the rows of the theorem to the calls of masks (`rows`), of grids (`grid_rows`) and of run_ends (`run_end_rows`), and
//! states the equations of the calls of masks that have no export (`equations`).
#![tactic(auto)]

pub mod equations;
pub mod grid_rows;
pub mod rows;
pub mod run_end_rows;
