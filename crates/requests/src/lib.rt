//! Requests of the public calls of words, activity, masks, grids, run_ends and dispatch, as lines of text: each is read, its call is made,
//! and the answer and all of each output are compared with the line. The programs over this crate differ only in the lines. The library
//! notation has the meaning of a line; here are the calls.
#![tactic(auto)]

mod builder_calls;
mod calls;
mod cursor_calls;
mod grid_calls;
mod mask_calls;
mod minute_calls;
pub mod run;
mod run_end_calls;
mod session;
mod span_calls;
mod tokens;
mod values;
mod words_calls;
