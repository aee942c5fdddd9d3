//! Permission masks over lent bytes: the mask's record, spans of bytes, and the calls on them. A mask has one flag for each truck.
//!
//! Every call answers on every input: it makes the checks of the reference, docs/REFERENCE.md, (checks.rt) in their order and returns the
//! refusal of the first that fails, with the builder, cursor or mask that the call would have changed. Nothing is written before the last
//! check has passed.
#![tactic(auto)]

pub mod aligned;
pub mod at_index;
pub mod bitmap;
pub mod bitmap_ops;
pub mod bitmask;
pub mod builder;
pub mod checks;
pub mod chunks;
pub mod compare;
pub mod cursor;
pub mod iterator;
pub mod next_and_not;
pub mod refusal;
mod shortcuts;
pub mod slice_iterator;
mod span;
mod span_ends;
pub mod superseding;
pub mod true_idx;
pub mod utils;
