// A bench morning as a stream: fed with any pieces of the input, it hands back what is to be written and the state to go on with.
#![tactic(auto)]

ghost use Rattle.std.specs.Prelude.{◌≡◌, ◌↔◌, true};
ghost use Rattle.bench_stream.specs.Feeding.{Ready, Feeds, Ends};

use bench_input::LINE;
use bench_morning::{Fed, Phase, Stream};

// Whether a stream is one that `begin` and `feed` hand out, and there is room for what it may say.
fn sane(s: Stream, kept: usize, room: usize) -> bool
    ensures { (result ≡ true) ↔ Ready s kept room }
{
    if !bench_script::has_room(room, 0) {
        return false;
    }
    let phase = s.phase;
    match phase {
        Phase::Opening => {
            if kept < bench_input::KEEP {
                return false;
            }
            if bench_input::KEEP <= s.at {
                return false;
            }
            s.from <= s.at
        }
        Phase::Talking => {
            if LINE < s.held {
                return false;
            }
            let exec = s.exec;
            exec.sound()
        }
        Phase::Over => true,
    }
}

// Takes bytes of the piece, up to its end or for as long as there is room for a turn's line, and writes what they decide.
pub fn feed(s: Stream, keep: &mut [u8], piece: &[u8], out: &mut [u8]) -> Fed
    ensures { Feeds s keep.old piece.now out.old result keep.new out.new }
{
    if !sane(s, keep.len(), out.len()) {
        return Fed {
            stream: s,
            took: 0,
            wrote: 0,
        };
    }
    let o = bench_morning::opened(s, keep, piece, &mut *out);
    if !bench_script::has_room(out.len(), o.wrote) {
        return o;
    }
    let next = o.stream;
    let phase = next.phase;
    match phase {
        Phase::Opening => o,
        Phase::Talking => {
            let n = o.took;
            let t = bench_talk::talk(next, &piece[n..], out, o.wrote);
            let stream = t.stream;
            Fed {
                stream,
                took: n + t.took,
                wrote: t.wrote,
            }
        }
        Phase::Over => Fed {
            stream: next,
            took: piece.len(),
            wrote: o.wrote,
        },
    }
}

// The input has ended: what is left to say is written.
pub fn end(s: Stream, keep: &[u8], out: &mut [u8]) -> usize
    ensures { Ends s keep.now out.old result out.new }
{
    if !sane(s, keep.len(), out.len()) {
        return 0;
    }
    let phase = s.phase;
    match phase {
        Phase::Opening => {
            let n = s.at;
            let o = bench_morning::start(s.panel, &keep[..n], out);
            o.wrote
        }
        Phase::Talking => {
            let line = s.line;
            let n = s.held;
            bench_input::put_last(out, &line[..n])
        }
        Phase::Over => 0,
    }
}
