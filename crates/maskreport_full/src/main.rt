//! The program maskreport on 65,536 bytes, as many as it takes. tests/maskreport.py wrote stdin and stdout.
#![tactic(auto)]

use std::io::Input;

fn main(rt: HostRuntime) {
    let _ = report::program::run(&mut rt.reader(), &mut rt.stdout(), &mut rt.stderr());
}
