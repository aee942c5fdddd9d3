//! Makes the requests of the list on standard input, which has the model's answers, and compares: every call at its limits, its refusals,
//! several failed checks at once, outputs exactly full and one byte short, ranges of arguments, and histories.
//!
//! The file `stdin`, next to src/, is the list; compare/cases writes it from compare/model, and tests/cases.py works each answer out again.
//! docs/REQUESTS.md has the meaning of a line, and what is printed. The file `stdout` has the counts of the whole list, so that a short one
//! shows.
//!
//! `rt run < stdin` makes them once all crates are proved, and so does `rt ci`. `rt try --seconds 1200 < stdin` makes them unproved: its
//! compiled run tests every access, for some nine minutes. Its interpreter cannot run the program, since it has no call for whether
//! standard input is seekable.
#![tactic(auto)]

use std::io;

fn main(rt: HostRuntime) -> io::Result<()> {
    requests::run::run(&rt)
}
