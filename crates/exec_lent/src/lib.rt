// "The bench host also keeps one record and lends it to be changed where it stands; those few entries do the same." Each
// calls the method by value of its name, stores the record that it hands back over the lent one, and answers its answer. A caller
// that has a step in hand has it stored by `stored`.
#![tactic(auto)]

ghost use Rattle.std.specs.Prelude.{◌≡◌, []};
ghost use Rattle.rules.specs.Calls as Call;
ghost use Rattle.exec.specs.Call.{Meets};
ghost use Rattle.exec.specs.Starting.{Starts};
ghost use Rattle.exec_lent.specs.Rebuilt.{step_of};

use exec::{Answer, Exec, Step};
use rig::Rig;
use rig_tables::{CYCLE_FLAGS, CYCLES};

// The record that a step hands back stands in the lent one's place then, and its answer is told. The other entries write
// such two lines themselves: the laws of crate lent_walks speak of just that code.
pub fn stored(step: Step, e: &mut Exec) -> Answer
    ensures { step_of e.new result ≡ step }
{
    *e = step.exec;
    step.answer
}

// Whatever the memory held, it holds a fresh record then, or one of all zeros if the start is refused.
pub fn start(e: &mut Exec, rig: Rig, cycles: [[u8; CYCLE_FLAGS]; CYCLES]) -> Answer
    ensures { Starts rig cycles (step_of e.new result) }
{
    let s = exec::start(rig, cycles);
    *e = s.exec;
    s.answer
}

pub fn schedule(e: &mut Exec, task: u32) -> Answer
    ensures { Meets e.old (Call.schedule task) (step_of e.new result) [] }
{
    let s = (*e).schedule(task);
    *e = s.exec;
    s.answer
}

pub fn cancel(e: &mut Exec, task: u32) -> Answer
    ensures { Meets e.old (Call.cancel task) (step_of e.new result) [] }
{
    let s = (*e).cancel(task);
    *e = s.exec;
    s.answer
}

pub fn terminate(e: &mut Exec, task: u32) -> Answer
    ensures { Meets e.old (Call.terminate task) (step_of e.new result) [] }
{
    let s = (*e).terminate(task);
    *e = s.exec;
    s.answer
}

pub fn finish(e: &mut Exec) -> Answer
    ensures { Meets e.old Call.finish (step_of e.new result) [] }
{
    let s = (*e).finish();
    *e = s.exec;
    s.answer
}

#[cfg(test)]
mod tests {
    use super::*;

    // The rig of one task and one plain flag, with no condition and no row.
    fn one_task() -> Rig {
        let mut rig = rig::none();
        rig.tasks = 1;
        rig.flags = 1;
        rig
    }

    // The refusal's number, 0 for none; how many tasks the lent record's rig has, and which of them runs, 0 for none.
    fn seen(answer: Answer, e: &Exec) -> (u8, u8, u8) {
        let number = match answer {
            Answer::Accepted(_) => 0,
            Answer::Refused(number) => number,
        };
        (number, e.rig.tasks, e.st.running)
    }

    // A record of all zeros becomes a fresh one, in which task 1 runs. The task waits until count 1; then nobody runs, so a finish is
    // refused by 5 and the record stays.
    #[test]
    fn steps_are_stored(rt: HostRuntime) {
        let mut e = exec::none();
        let started = stored(exec::start(one_task(), [[0; CYCLE_FLAGS]; CYCLES]), &mut e);
        assert_eq!(rt; seen(started, &e), (0, 1, 1));
        let waits = stored(e.wait_until(1), &mut e);
        assert_eq!(rt; seen(waits, &e), (0, 1, 0));
        let refused = stored(e.finish(), &mut e);
        assert_eq!(rt; seen(refused, &e), (5, 1, 0));
    }
}
