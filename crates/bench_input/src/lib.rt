// The runner's input as it comes, byte by byte: the rig's text up to the line RUN, and the script line that is not ended yet.
#![tactic(auto)]

ghost use Rattle.std.specs.Prelude.{◌≡◌, ◌≤◌, ◌<◌, length, take};
ghost use Rattle.put_text.specs.Wrote.{Wrote};
ghost use Rattle.bench_input.specs.Opening.{full, run_ends_at, line_start, Scans};
ghost use Rattle.bench_input.specs.Line.{line_room, last_text, line_number, Holds};

use bench_script::LF;

// "rig file up to 40,960 bytes", and the four of the line RUN: by then it is known where the rig ends.
pub const KEEP: usize = 40964;

// Of a script line so many bytes are kept that a longer one shows as too long: no line that says anything has more than 23.
pub const LINE: usize = 24;

// Above any line's number of a rig file.
const LINES: usize = 65536;

// The bytes that are kept, where their last line starts, how many of the piece were taken, and whether the rig's text is
// whole: then it ends at `from`. No enum with `ready` for its variants: the three numbers are told in both cases.
#[derive(Debug, Clone, Copy, PartialEq, Eq)]
pub struct Kept {
    pub at: usize,
    pub from: usize,
    pub took: usize,
    pub ready: bool,
}

// Whether the byte behind the kept ones ends the line RUN.
fn run_ends(keep: &[u8], from: usize, at: usize, b: u8) -> bool
    requires { (from ≤ at) × (at ≤ length keep.now) }
    ensures { result ≡ run_ends_at (take at keep.now) from b }
{
    b == LF && bench_read::is_run(&keep[from..at])
}

// Where the last line starts once the byte stands before `at`.
fn line_start(from: usize, at: usize, b: u8) -> usize
    ensures { result ≡ line_start from at b }
{
    if b == LF { at } else { from }
}

// Bytes are kept until the line RUN has come, or more than a rig and that line may have.
pub fn scan(keep: &mut [u8], start: usize, line: usize, piece: &[u8]) -> Kept
    requires { (start < full) × (full ≤ length keep.old) × (line ≤ start) }
    ensures { Scans keep.old start line piece.now result keep.new }
{
    let mut at = start;
    let mut from = line;
    for (i, b) in piece.iter().enumerate() {
        let run = run_ends(&*keep, from, at, *b);
        keep[at] = *b;
        at += 1;
        if run {
            return Kept {
                at,
                from,
                took: i + 1,
                ready: true,
            };
        }
        if at == KEEP {
            return Kept {
                at,
                from: at,
                took: i + 1,
                ready: true,
            };
        }
        from = line_start(from, at, *b);
    }
    Kept {
        at,
        from,
        took: piece.len(),
        ready: false,
    }
}

// One byte more of a script line; of a line that is too long the rest is left out.
pub fn hold(line: &mut [u8; LINE], held: usize, b: u8) -> usize
    requires { (length line.old ≡ line_room) × (held ≤ line_room) }
    ensures { Holds line.old held b line.new result }
{
    if LINE <= held {
        return held;
    }
    line[held] = b;
    held + 1
}

// A last line without LF is of wrong shape; there is none if it has no byte.
pub fn put_last(out: &mut [u8], line: &[u8]) -> usize
    requires { 2 ≤ length out.old }
    ensures { Wrote out.old 0 (last_text line.now) out.new result }
{
    if line.is_empty() {
        return 0;
    }
    bench_script::put_wrong(out, 0)
}

// The number of a line as it is printed: a rig file of at most 40,960 bytes has no line of a larger one.
pub fn line_number(n: usize) -> u32
    ensures { result ≡ line_number n }
{
    if n < LINES { n as u32 } else { 0 }
}
