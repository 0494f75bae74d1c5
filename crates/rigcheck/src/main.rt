// Reads a rig file from standard input, up to a line RUN if there is one, and says what it holds or why it is refused: one line
// that begins with `right` or with `refused` (crate rig_saying).
#![tactic(auto)]

fn main() {
    let mut buffer = io::large_buffer();
    let n = io::read_full(0, &mut buffer);
    let mut out = [0u8; rig_saying::ROOM];
    let said = rig_saying::say_input(&buffer[..n], &mut out);
    io::write_all(1, &out[..said]);
}
