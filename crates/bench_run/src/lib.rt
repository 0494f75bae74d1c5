// The bench as a program: a rig, the line RUN and a script come in on standard input, a line for each goes out. What goes out is the
// stream's to say (crate bench_stream); here it is read, fed and written. The runner and the panel are this, with the panel's verbs off and on.
#![tactic(auto)]

ghost use Rattle.std.specs.Prelude.{◌≡◌, ◌≤◌, length};
ghost use Rattle.bench_script.specs.Output.{turn_room};
ghost use Rattle.bench_input.specs.Opening.{full};
ghost use Rattle.bench_morning.specs.Stream.{HoldsIn, nothing_more};

use bench_morning::{Phase, Stream};
use std::io;
use std::io::{Error, ErrorKind, Read, Write};

// Bytes of a read, and of a write at most. The output is the same for any.
const PIECE: usize = 65536;

// A failure is told; but where nobody reads what goes out any more the run ends without a word.
fn tell(rt: &impl Eprint, what: &[u8], e: Error) {
    if e.kind() == ErrorKind::BrokenPipe {
        return;
    }
    match str::from_utf8(what) {
        Ok(what) => {
            let _ = eprintln!(rt; "{what}: {e}");
        }
        Err(_) => {
            let _ = eprintln!(rt; "{e}");
        }
    }
}

// A failure is told; nothing more is to be said.
fn failed(rt: &impl Eprint, what: &[u8], e: Error) -> Stream
    ensures { result ≡ nothing_more }
{
    tell(rt, what, e);
    bench_morning::over()
}

// All of a piece is fed, and what it decides is written. The buffers are lent one by one, as the stream takes them: of the piece only a part is fed,
// and a struct of the three would be taken apart at each call.
fn take<W: Write>(
    rt: &impl Eprint,
    to: &mut W,
    s: Stream,
    keep: &mut [u8],
    piece: &[u8],
    out: &mut [u8],
    output: &[u8],
) -> Stream
    requires { HoldsIn s (length keep.old) × (turn_room ≤ length out.old) }
    ensures { HoldsIn result (length keep.new) }
{
    let mut stream = s;
    let mut from: usize = 0;
    // No `for`: a feed takes as many bytes as there is room for.
    while from < piece.len() {
        let fed = bench_stream::feed(stream, &mut *keep, &piece[from..], &mut *out);
        if let Some(e) = bench_io::write_out(&mut *to, &out[..fed.wrote]).failure {
            return failed(rt, output, e);
        }
        stream = fed.stream;
        from += fed.took;
    }
    stream
}

// The input has ended: what is left to say is written.
fn finish<W: Write>(
    rt: &impl Eprint,
    to: &mut W,
    s: Stream,
    keep: &[u8],
    out: &mut [u8],
    output: &[u8],
) {
    let n = bench_stream::end(s, keep, &mut *out);
    if let Some(e) = bench_io::write_out(to, &out[..n]).failure {
        tell(rt, output, e);
    }
}

// Reads whatever is there, feeds it and writes what it decides, to the end of the input or until there is nothing more to say.
fn go_on<R: io::Input + Print + Eprint>(
    rt: &R,
    panel: bool,
    keep: &mut [u8],
    piece: &mut [u8],
    out: &mut [u8],
    input: &[u8],
    output: &[u8],
)
    requires { (full ≤ length keep.old) × (turn_room ≤ length out.old) }
{
    let mut from = rt.reader();
    let mut to = io::writer(rt);
    let mut stream = bench_morning::begin(panel);
    for _ in 0..u64::MAX {
        match bench_io::read_in(&mut from, &mut *piece) {
            Ok(0) => {
                finish(rt, &mut to, stream, keep, out, output);
                return;
            }
            Ok(n) => {
                stream = take(
                    rt,
                    &mut to,
                    stream,
                    &mut *keep,
                    &piece[..n],
                    &mut *out,
                    output,
                );
                if stream.phase == Phase::Over {
                    return;
                }
            }
            Err(e) => {
                tell(rt, input, e);
                return;
            }
        }
    }
}

// The whole program, with the panel's verbs on or off, and what it calls its input and its output where one of them fails.
pub fn run<R: io::Input + Print + Eprint>(rt: &R, panel: bool, input: &[u8], output: &[u8])
    ensures { result ≡ tt }
{
    let mut keep = [0u8; bench_input::KEEP];
    let mut piece = [0u8; PIECE];
    let mut out = [0u8; PIECE];
    go_on(rt, panel, &mut keep, &mut piece, &mut out, input, output);
}
