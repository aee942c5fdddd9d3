//! 64-bit words and lent bytes as lists of flags, in Arrow's numbering: flag j of a buffer is bit j mod 8 of byte j div 8.
//!
//! Every public function is total: it has an answer for every argument and no precondition. Flags past the end of lent bytes are zero, and
//! what does not fit an output is left out. The contracts turn numbers into lists of flags (specs/Flags.antt), so that the contracts of
//! masks and dispatch have no operations on bits, shifts or powers of two. In activity only private functions of `exchange` and `checks`
//! have them.
#![tactic(auto)]

pub mod changes;
pub mod columns;
pub mod counts;
pub mod ends;
pub mod flags;
mod kernels;
mod lanes;
pub mod loops;
pub mod merge;
pub mod nth;
mod operations;
pub mod ops;
pub mod place;
mod planes;
mod rows;
pub mod short;
pub mod transpose;
pub mod uniform;
pub mod word;
