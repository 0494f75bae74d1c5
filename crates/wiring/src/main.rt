// Reads a rig file from standard input, up to a line RUN if there is one, and writes its wiring sheet: how often in a frame each row is
// due and each terminal is spoken to (crate wiring_sheet). With the option --table it is a table with a column for each cycle.
#![tactic(auto)]

use std::env::{Env, FillError};

// More than the option has.
const OPTION: usize = 16;

// How many arguments there are, the program's name among them.
fn arguments(rt: &impl Env) -> usize {
    let mut word = [0u8; OPTION];
    for i in 0..usize::MAX {
        if let Err(FillError::NotPresent) = rt.arg(i, &mut word) {
            return i;
        }
    }
    usize::MAX
}

fn main(rt: HostRuntime) {
    let mut buffer = io::large_buffer();
    let n = io::read_full(0, &mut buffer);
    let mut option = [0u8; OPTION];
    let m = rt.arg(1, &mut option).unwrap_or(0);
    let mut out = [0u8; wiring_sheet::ROOM];
    let told = wiring_sheet::tell(arguments(&rt), &option[..m], &buffer[..n], &mut out);
    io::write_all(1, &out[..told]);
}
