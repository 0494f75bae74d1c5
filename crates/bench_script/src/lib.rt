// Script lines and output lines of the bench runner: what they say, and the output written. The reading of script lines is in bench_read.
#![tactic(auto)]

ghost use Rattle.std.specs.Prelude.{◌≡◌, [], ◌∷◌, ◌+◌, ◌*◌, ◌≤◌, leb, length};
ghost use Rattle.bench_script.specs.Output.{fields_text, if_any, wrong_text, room_of_field, turn_room};
ghost use Rattle.bench_script.specs.Letters.{start_name};
ghost use Rattle.bench_script.specs.Script.{letter_of};
ghost use Rattle.put_text.specs.Wrote.{Wrote};
ghost use Rattle.bench_script.specs.Laws.Written.{Begun};

// Lines end in LF, and fields are parted by one tab.
pub const LF: u8 = b'\n';

pub const TAB: u8 = b'\t';

// The letters of START.
const NAME: usize = 5;

// The line START has at most 5 letters, five fields of 11 bytes and LF.
pub const START_ROOM: usize = 64;

// A turn's line has at most a letter, 133 fields of 11 bytes (a tick's 128 words among them) and LF.
pub const TURN_ROOM: usize = 2048;

// What a script line says: a call with its numbers, a question of the panel, or nothing that a script line may say.
#[derive(Debug, Clone, Copy, PartialEq, Eq)]
pub enum Said {
    Schedule(u32),
    Cancel(u32),
    Terminate(u32),
    Finish,
    Tick,
    Until(u32),
    Cycles(u32),
    Latched(u32, bool),
    Unlatched(u32, bool),
    Signal(u32, bool),
    Ask(u32),
    NextWaking,
    Overruns(u32),
    WhyNot(u32, u32),
    // Not an Option's none: its line is answered too, with a letter of its own.
    Wrong,
}

impl Said {
    // The letter of its verb, ? for a line that says nothing.
    pub fn letter(self) -> u8
        ensures { result ≡ letter_of self }
    {
        match self {
            Said::Schedule(_) => b'S',
            Said::Cancel(_) => b'X',
            Said::Terminate(_) => b'Z',
            Said::Finish => b'F',
            Said::Tick => b'K',
            Said::Until(_) => b'U',
            Said::Cycles(_) => b'R',
            Said::Latched(_, _) => b'L',
            Said::Unlatched(_, _) => b'N',
            Said::Signal(_, _) => b'G',
            Said::Ask(_) => b'Q',
            Said::NextWaking => b'V',
            Said::Overruns(_) => b'O',
            Said::WhyNot(_, _) => b'Y',
            Said::Wrong => b'?',
        }
    }
}

// A tab and the decimal of n are written at `at`; the place after them is answered.
pub fn put_field(out: &mut [u8], at: usize, n: u32) -> usize
    requires { at + room_of_field ≤ length out.old }
    ensures { Wrote out.old at (fields_text (n ∷ [])) out.new result }
{
    out[at] = TAB;
    decimal::put_number(out, at + 1, n as u64)
}

// The same of a number of which one, `none`, says that there is none: then nothing is written.
pub fn put_if_any(out: &mut [u8], at: usize, none: u32, n: u32) -> usize
    requires { at + room_of_field ≤ length out.old }
    ensures { Wrote out.old at (fields_text (if_any none n)) out.new result }
{
    if n == none {
        return at;
    }
    put_field(out, at, n)
}

// Each word after a tab.
pub fn put_words(out: &mut [u8], at: usize, words: &[u16]) -> usize
    requires { at + room_of_field * length words.now ≤ length out.old }
    ensures { Wrote out.old at (fields_text words.now) out.new result }
{
    let mut p = at;
    for w in words {
        p = put_field(&mut *out, p, *w as u32);
    }
    p
}

// The numbers that every answer has: the answer's own, the count, the running task, and behind it how many tasks the call woke and activated.
pub fn put_answer(
    out: &mut [u8],
    at: usize,
    code: u32,
    count: u32,
    running: u32,
    woken: u32,
    activated: u32,
) -> usize
    requires { at + 5 * room_of_field ≤ length out.old }
    ensures { Wrote out.old at (fields_text (code ∷ count ∷ running ∷ woken ∷ activated ∷ [])) out.new result }
{
    let b = put_field(&mut *out, at, code);
    let c = put_field(&mut *out, b, count);
    let d = put_field(&mut *out, c, running);
    let e = put_field(&mut *out, d, woken);
    put_field(out, e, activated)
}

// A turn may be taken only where there is room for any turn's line.
pub fn has_room(all: usize, at: usize) -> bool
    ensures { result ≡ leb (at + turn_room) all }
{
    all >= TURN_ROOM && at <= all - TURN_ROOM
}

// "prints ? alone"
pub fn put_wrong(out: &mut [u8], at: usize) -> usize
    requires { at + 2 ≤ length out.old }
    ensures { Wrote out.old at wrong_text out.new result }
{
    put_text::put_text(out, at, b"?\n")
}

// The name of the first output line.
fn put_name(out: &mut [u8])
    requires { 5 ≤ length out.old }
    ensures { Wrote out.old 0 start_name out.new 5 }
{
    put_text::put_text(out, 0, b"START");
}

// The first output line of an accepted rig: 0, the count, the running task, the tasks woken and activated. It needs 64 bytes; with fewer nothing is
// written.
pub fn put_started(out: &mut [u8], count: u32, running: u32, woken: u32, activated: u32) -> usize
    ensures { Begun out.old (0 ∷ count ∷ running ∷ woken ∷ activated ∷ []) out.new result }
{
    if out.len() < START_ROOM {
        return 0;
    }
    put_name(&mut *out);
    let p = put_answer(&mut *out, NAME, 0, count, running, woken, activated);
    out[p] = LF;
    p + 1
}

// The first output line of a refused rig: the number and the line.
pub fn put_refused(out: &mut [u8], number: u32, line: u32) -> usize
    ensures { Begun out.old (number ∷ line ∷ []) out.new result }
{
    if out.len() < START_ROOM {
        return 0;
    }
    put_name(&mut *out);
    let p = put_field(&mut *out, NAME, number);
    let q = put_field(&mut *out, p, line);
    out[q] = LF;
    q + 1
}
