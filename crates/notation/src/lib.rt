//! Requests as lines of text, except for the calls themselves: standard input is taken apart into lines, a line into numbers and bytes, and
//! the answer and the output of a call are compared with the line. Nothing here depends on what a call does.
#![tactic(auto)]

pub mod answer;
pub mod arguments;
pub mod call;
pub mod choices;
mod element;
pub mod fault;
mod item;
pub mod items;
pub mod last;
pub mod lent;
pub mod line;
pub mod lines;
pub mod list;
mod malformed;
pub mod names;
pub mod outcome;
mod pieces;
pub mod reading;
pub mod sums;
pub mod tally;
#[cfg(test)]
mod tests;
mod text;
