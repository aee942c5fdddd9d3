//! The calls of words, activity, masks, grids, run_ends and dispatch as functions that C and Rust link. Records are passed as numbers, a
//! slice as its pointer and its number of elements; include/poruwhina.h declares all the functions.
//!
//! Each export makes the call's records from its numbers, makes the call, and makes numbers from the answer; only combinations of masks
//! that lie in eight bytes each are made here, without records (`short`). Each call has an export of its own, since C links names: so there
//! are several exports of one shape. What belongs together, as a mask and its bytes or a cursor's numbers, is passed as several parameters,
//! as the C interface has it.
#![tactic(auto)]

pub mod answers;
pub mod at_index;
pub mod builder;
pub mod chunks;
pub mod combine;
pub mod cursors;
pub mod grid;
pub mod interface;
pub mod mask;
pub mod next_and_not;
pub mod offer;
pub mod reassign;
pub mod records;
pub mod run_end;
pub mod search;
mod short;
pub mod spans;
pub mod superseding;
pub mod walks;
pub mod window;
pub mod word;
