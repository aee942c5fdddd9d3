//! Reads standard input, at most 65,536 bytes of eight flags each, and prints the report on them, as in this crate's folder:
//!     printf '\055' | rt run
//! The program is `run` of the crate report. maskreport_empty, maskreport_full and maskreport_over are the same program, run on no
//! bytes, on as many as it takes and on one more; tests/maskreport.py wrote what they are run on and what they must print.
//! The status is 0 whatever `run` returns: if it fails it has printed that to standard error.
#![tactic(auto)]

use std::io::Input;

fn main(rt: HostRuntime) {
    let _ = report::program::run(&mut rt.reader(), &mut rt.stdout(), &mut rt.stderr());
}
