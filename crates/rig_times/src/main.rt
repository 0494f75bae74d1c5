// Reads a rig file from standard input, then reads and writes it again many times over, to measure both; it says how often
// the rig was accepted and how often the bytes came back the same.
#![tactic(auto)]

// Whether the file is accepted.
fn reads(s: &[u8]) -> bool {
    let answer = rig_read::read(s);
    answer.no == 0
}

// Whether the first `n` bytes of `out` are those of `s`.
fn begins(s: &[u8], out: &[u8], n: usize) -> bool {
    n <= out.len() && check::same(s, &out[..n])
}

// Whether the rig of the file, written, is the file again.
fn writes_back(s: &[u8]) -> bool {
    let answer = rig_read::read(s);
    let g = answer.rig;
    let cycles = answer.cycles;
    let mut out = [0u8; 40960];
    let w = rig_write::write(&mut out, g, cycles);
    let rig_write::Written::Done(n) = w else {
        return false;
    };
    begins(s, &out, n)
}

fn read_times(s: &[u8], turns: u64) -> u64 {
    let mut n: u64 = 0;
    for _ in 0..turns {
        if reads(s) {
            n += 1;
        }
    }
    n
}

fn write_times(s: &[u8], turns: u64) -> u64 {
    let mut n: u64 = 0;
    for _ in 0..turns {
        if writes_back(s) {
            n += 1;
        }
    }
    n
}

fn main() {
    let mut buffer = io::large_buffer();
    let n = io::read_full(0, &mut buffer);
    let a = read_times(&buffer[..n], 1000);
    let b = write_times(&buffer[..n], 1000);
    io::print_decimal(1, a);
    io::write_all(1, b" times accepted, ");
    io::print_decimal(1, b);
    io::write_all(1, b" times written back the same\n");
}
