//! The report on a mask that the program maskreport prints: its numbers, and the program itself.
#![tactic(auto)]

pub mod numbers;
pub mod program;
