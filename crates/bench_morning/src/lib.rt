// A bench morning: the stream's state, and its opening, the rig's text up to the line START.
#![tactic(auto)]

ghost use Rattle.std.specs.Prelude.{◌≡◌, [], ◌∷◌, ◌≤◌, length};
ghost use Rattle.bench_script.specs.Letters.{start_name};
ghost use Rattle.bench_script.specs.Output.{start_room, line_text, turn_room};
ghost use Rattle.put_text.specs.Wrote.{Wrote};
ghost use Rattle.bench_morning.specs.Stream.{fresh, beginning, nothing_more, HoldsBy, HoldsIn};
ghost use Rattle.bench_morning.specs.Laws.Steps.{Begins, Opens};
ghost use Rattle.bench_morning.specs.declared.Phase.TheVariants.{Opening};

use bench_input::LINE;
use exec::{Answer, Exec};
use refusals::Refusal;

// Where a stream stands: in the rig's text; in the script; or behind a refused rig, where nothing more is said.
#[derive(Clone, Copy)]
pub enum Phase {
    Opening,
    Talking,
    Over,
}

// A stream between two pieces of its input, with the panel's verbs on or off. In the rig's text: the bytes that are kept in the lent buffer, and where their last
// line starts. In the script: the record, and the bytes of a line that is not ended yet.
#[derive(Clone, Copy)]
pub struct Stream {
    pub panel: bool,
    pub phase: Phase,
    pub at: usize,
    pub from: usize,
    pub line: [u8; LINE],
    pub held: usize,
    pub exec: Exec,
}

// The stream to go on with, how many bytes of the piece were taken and how many stand at the front of the output.
#[derive(Clone, Copy)]
pub struct Fed {
    pub stream: Stream,
    pub took: usize,
    pub wrote: usize,
}

// Before the first byte.
pub fn begin(panel: bool) -> Stream
    ensures { result ≡ beginning panel }
{
    behind(panel, Phase::Opening, exec::none())
}

// Behind all that there is to say.
pub fn over() -> Stream
    ensures { result ≡ nothing_more }
{
    behind(false, Phase::Over, exec::none())
}

// A stream behind the line START, and how many bytes that line has.
#[derive(Clone, Copy)]
pub struct Started {
    pub stream: Stream,
    pub wrote: usize,
}

// A stream that holds no byte: before the first, at the start of the script, or behind a refused rig.
pub fn behind(panel: bool, phase: Phase, exec: Exec) -> Stream
    ensures { result ≡ fresh panel phase exec }
{
    Stream {
        panel,
        phase,
        at: 0,
        from: 0,
        line: [0; LINE],
        held: 0,
        exec,
    }
}

// "A refused rig prints START, number, line, and ends."
fn refused(number: u32, line: u32, out: &mut [u8]) -> Started
    requires { start_room ≤ length out.old }
    ensures { (result.stream ≡ nothing_more) × Wrote out.old 0 (line_text start_name (number ∷ line ∷ [])) out.new result.wrote }
{
    let n = bench_script::put_refused(out, number, line);
    Started {
        stream: over(),
        wrote: n,
    }
}

// The rig's text is whole: it is read, and the record is started.
pub fn start(panel: bool, text: &[u8], out: &mut [u8]) -> Started
    requires { start_room ≤ length out.old }
    ensures { Begins panel text.now out.old result out.new }
{
    let a = rig_read::read(text);
    if a.no != 0 {
        return refused(a.no as u32, bench_input::line_number(a.line), out);
    }
    let g = a.rig;
    let cycles = a.cycles;
    let s = exec::start(g, rig::table_of(cycles));
    let answer = s.answer;
    let Answer::Accepted(report) = answer else {
        // An accepted file's rig breaks no rule.
        return refused(Refusal::RuleBroken.number() as u32, 0, out);
    };
    let exec = s.exec;
    let running = exec.st.running as u32;
    let n = bench_script::put_started(out, exec.st.count, running, report.woken, report.activated);
    Started {
        stream: behind(panel, Phase::Talking, exec),
        wrote: n,
    }
}

// Bytes of the rig's text are taken, up to its end or to the piece's.
fn read_on(s: Stream, keep: &mut [u8], piece: &[u8], out: &mut [u8]) -> Fed
    requires { (turn_room ≤ length out.old) × (s.phase ≡ Opening) × HoldsBy Opening s (length keep.old) }
    ensures { Opens s keep.old piece.now out.old result keep.new out.new }
{
    let c = bench_input::scan(&mut *keep, s.at, s.from, piece);
    if c.ready {
        let n = c.from;
        let o = start(s.panel, &keep[..n], out);
        let stream = o.stream;
        return Fed {
            stream,
            took: c.took,
            wrote: o.wrote,
        };
    }
    let mut stream = s;
    stream.at = c.at;
    stream.from = c.from;
    Fed {
        stream,
        took: c.took,
        wrote: 0,
    }
}

// A stream that is behind the rig's text takes none of it.
fn unread(s: Stream) -> Fed
    ensures { result ≡ record { stream = s; took = 0; wrote = 0 } }
{
    Fed {
        stream: s,
        took: 0,
        wrote: 0,
    }
}

// What a piece holds of the rig's text.
pub fn opened(s: Stream, keep: &mut [u8], piece: &[u8], out: &mut [u8]) -> Fed
    requires { (turn_room ≤ length out.old) × HoldsIn s (length keep.old) }
    ensures { Opens s keep.old piece.now out.old result keep.new out.new }
{
    let phase = s.phase;
    match phase {
        Phase::Opening => read_on(s, keep, piece, out),
        Phase::Talking => unread(s),
        Phase::Over => unread(s),
    }
}
