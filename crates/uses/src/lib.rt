//! Callers of the library crates, each proved: for other repositories to read and copy. The pages CALLING.md of the crates quote them.
//!
//! A proof here cites the clauses of the calls, and laws of those files of the crates that the pages list, and no others.
#![tactic(auto)]

pub mod counting;
pub mod minutes;
pub mod pits;
pub mod runs;
pub mod trucks;
