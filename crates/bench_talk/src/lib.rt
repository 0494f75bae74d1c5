// The script of a bench morning, line after line.
#![tactic(auto)]

ghost use Rattle.std.specs.Prelude.{◌≤◌, length};
ghost use Rattle.exec.specs.Sound.{SoundRecord};
ghost use Rattle.bench_input.specs.Line.{line_room};
ghost use Rattle.bench_talk.specs.Talks.{Talks};

use bench_morning::{Fed, Phase, Stream};
use bench_script::LF;

// Every byte of the piece is taken for as long as there is room: a line's end is its turn. The record stays in one place here,
// since a line costs what its copies cost.
pub fn talk(s: Stream, piece: &[u8], out: &mut [u8], place: usize) -> Fed
    requires { (s.held ≤ line_room) × SoundRecord s.exec × (place ≤ length out.old) }
    ensures { Talks s piece.now out.old place result out.new }
{
    let mut exec = s.exec;
    let mut line = s.line;
    let mut held = s.held;
    let mut at = place;
    let mut i: usize = 0;
    while i < piece.len() {
        if !bench_script::has_room(out.len(), at) {
            break;
        }
        let b = piece[i];
        i += 1;
        if b == LF {
            at = bench_turn::take_turn(s.panel, &mut exec, &line[..held], &mut *out, at);
            held = 0;
            continue;
        }
        held = bench_input::hold(&mut line, held, b);
    }
    Fed {
        stream: Stream {
            panel: s.panel,
            phase: Phase::Talking,
            at: s.at,
            from: s.from,
            line,
            held,
            exec,
        },
        took: i,
        wrote: at,
    }
}
