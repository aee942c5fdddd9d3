//! Run-end encoding: a list of flags as the positions at which its runs end and the flag of each run. Read from such an encoding, and
//! written as one with the fewest runs.
//!
//! Ends are numbers of 32 bits with a sign, as Arrow has them, and may be any such numbers where they are read.
#![tactic(auto)]

pub mod read;
mod rules;
pub mod write;
