// A turn of the bench: a script line is read, its call is made, and its output line is written.
#![tactic(auto)]

ghost use Rattle.std.specs.Prelude.{◌≡◌};
ghost use Rattle.exec.specs.Call.{with_state};
ghost use Rattle.bench_turn.specs.Turn.{Turns};
ghost use Rattle.bench_turn.specs.Laws.Turn.{Made};

use bench_script::Said;
use exec::{Answer, Exec, answer_of};
use exec_state::State;
use refusals::Refusal;

// "Its lent buffer has at least 128 words"
const TICK_WORDS: usize = 128;

// The state after a turn, and the place after what the turn wrote. Rig and cycles stay as they are: the caller has them, and
// handed back they would be copied for each line.
#[derive(Clone, Copy)]
pub struct Turn {
    pub st: State,
    pub at: usize,
}

// The call that a line asks for, over the record where it stands; only a tick writes to the words. "any other script line is refused by 1"
fn ask(e: &mut Exec, said: Said, words: &mut [u16]) -> Answer
    ensures { Made e.old said words.old (record { exec = e.new; answer = result }) words.new }
{
    match said {
        Said::Schedule(t) => answer_of(exec_tasks::schedule(&e.rig, &e.cycles, &mut e.st, t)),
        Said::Cancel(t) => answer_of(exec_tasks::cancel(&e.rig, &e.cycles, &mut e.st, t)),
        Said::Terminate(t) => answer_of(exec_tasks::terminate(&e.rig, &e.cycles, &mut e.st, t)),
        Said::Finish => answer_of(exec_tasks::finish(&e.rig, &e.cycles, &mut e.st)),
        Said::Tick => answer_of(exec_bus::tick(&e.rig, &e.cycles, &mut e.st, words)),
        Said::Until(t) => answer_of(exec_waits::wait_until(&e.rig, &e.cycles, &mut e.st, t)),
        Said::Cycles(n) => answer_of(exec_waits::wait_for(&e.rig, &e.cycles, &mut e.st, n)),
        Said::Latched(f, v) => {
            answer_of(exec_waits::wait_on(&e.rig, &e.cycles, &mut e.st, true, f, v))
        },
        Said::Unlatched(f, v) => {
            answer_of(exec_waits::wait_on(&e.rig, &e.cycles, &mut e.st, false, f, v))
        },
        Said::Signal(f, v) => answer_of(exec_flags::signal(&e.rig, &e.cycles, &mut e.st, f, v)),
        Said::Ask(f) => answer_of(exec_flags::read_flag(&e.rig, &e.cycles, &e.st, f)),
        Said::NextWaking => answer_of(exec_questions::next_waking(&e.rig, &e.cycles, &e.st)),
        Said::Overruns(t) => answer_of(exec_questions::overruns(&e.rig, &e.cycles, &e.st, t)),
        Said::WhyNot(t, d) => answer_of(exec_why::why_not(&e.rig, &e.cycles, &e.st, t, d)),
        Said::Wrong => answer_of(Err(Refusal::WrongShape)),
    }
}

// The turn of a script line, without its LF, with the panel's verbs on or off, over the record where it stands; the place after what the
// turn wrote. Where there is no room for a turn's line nothing happens: a turn always writes.
pub fn take_turn(panel: bool, e: &mut Exec, line: &[u8], out: &mut [u8], at: usize) -> usize
    ensures turns { Turns panel e.old line.now out.old at (record { st = e.new.st; at = result }) out.new }
    ensures kept { e.new ≡ with_state e.old e.new.st }
{
    if !bench_script::has_room(out.len(), at) {
        return at;
    }
    let said = bench_read::read_line(panel, line);
    let verb = said.letter();
    if verb == b'?' {
        return bench_script::put_wrong(out, at);
    }
    let mut words = [0u16; TICK_WORDS];
    let answer = ask(e, said, &mut words);
    bench_show::show(
        verb,
        answer,
        e.st.count,
        e.st.running as u32,
        &words,
        out,
        at,
    )
}

// The same by value: the state after the turn, for a caller that has rig and cycles.
pub fn take_line(panel: bool, mut e: Exec, line: &[u8], out: &mut [u8], at: usize) -> Turn
    ensures { Turns panel e line.now out.old at result out.new }
{
    let at = take_turn(panel, &mut e, line, out, at);
    Turn { st: e.st, at }
}
