//! Makes the requests of the list on standard input, which has recorded answers of polars-arrow 0.55.2's bitmap module, and compares. So a
//! machine without Rust still compares with it.
//!
//! The file `stdin`, next to src/, is the list; compare/record writes it only from the Rust. docs/REQUESTS.md has the meaning of a line,
//! and what is printed. The file `stdout` has the counts of the whole list, so that a short one shows.
//!
//! `rt run < stdin` makes them once all crates are proved, and so does `rt ci`. `rt try --seconds 1200 < stdin` makes them unproved: its
//! compiled run tests every access, for some two minutes. Its interpreter cannot run the program, since it has no call for whether standard
//! input is seekable.
#![tactic(auto)]

use std::io;

fn main(rt: HostRuntime) -> io::Result<()> {
    requests::run::run(&rt)
}
