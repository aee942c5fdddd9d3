//! The activity of the last minutes: a word for each minute, with a flag for each of up to 64 trucks, and how many words have each flag
//! set.
//!
//! The crate uses only words: no mask and no check of masks. Its one number is 16.
#![tactic(auto)]

mod checks;
mod exchange;
pub mod lent;
pub mod window;
