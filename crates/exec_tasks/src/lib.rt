// Schedule, cancel, terminate, finish, and the start: what they do to the state of a record.
#![tactic(auto)]

ghost use Rattle.std.specs.Prelude.{[]};
ghost use Rattle.rules.specs.Calls.{schedule, cancel, terminate, finish};
ghost use Rattle.exec_outcome.specs.Outcome.{outcome_of, Tells};
ghost use Rattle.exec_tasks.specs.Laws.Starting.{Begins};

use exec_outcome::Report;
use exec_state::{State, UNINVOKED, WAITING};
use refusals::Refusal;
use rig::{Cycle, Rig};
use rig_tables::CYCLES;

// "then task 1 is scheduled"
const FIRST_TASK: usize = 1;

// "unlatched conditions take the undesired value; inactive; if all conditions are as desired, .. activated"
pub fn schedule(
    rig: &Rig,
    cycles: &[Cycle; CYCLES],
    st: &mut State,
    task: u32,
) -> Result<Report, Refusal>
    ensures { Tells rig.now cycles.now st.old (schedule task) (outcome_of st.new result) [] }
{
    let sound = exec_sound::sound(rig, cycles, st);
    let invoked = exec_refusals::look(&st.state, task) != UNINVOKED;
    exec_refusals::of_task(sound, rig, st.running, task, invoked)?;
    let queue = exec_testing::scheduled(rig, st, task as usize);
    Ok(exec_outcome::settle(rig, st, queue))
}

// "the named task and all its descendants become uninvoked and leave their chains"
pub fn cancel(
    rig: &Rig,
    cycles: &[Cycle; CYCLES],
    st: &mut State,
    task: u32,
) -> Result<Report, Refusal>
    ensures { Tells rig.now cycles.now st.old (cancel task) (outcome_of st.new result) [] }
{
    let sound = exec_sound::sound(rig, cycles, st);
    let uninvoked = exec_refusals::look(&st.state, task) == UNINVOKED;
    exec_refusals::of_task(sound, rig, st.running, task, uninvoked)?;
    let queue = st.cancel(rig, task as usize);
    Ok(exec_outcome::settle(rig, st, queue))
}

// As finish, "for the named active task, taken out of any chain"
pub fn terminate(
    rig: &Rig,
    cycles: &[Cycle; CYCLES],
    st: &mut State,
    task: u32,
) -> Result<Report, Refusal>
    ensures { Tells rig.now cycles.now st.old (terminate task) (outcome_of st.new result) [] }
{
    let sound = exec_sound::sound(rig, cycles, st);
    let idle = exec_refusals::look(&st.state, task) < WAITING;
    exec_refusals::of_task(sound, rig, st.running, task, idle)?;
    let t = task as usize;
    let queue = st.terminate(rig, t);
    Ok(exec_again::settle_again(rig, st, queue, t))
}

// "(the running task): inactive, activation flag queued off"
pub fn finish(rig: &Rig, cycles: &[Cycle; CYCLES], st: &mut State) -> Result<Report, Refusal>
    ensures { Tells rig.now cycles.now st.old finish (outcome_of st.new result) [] }
{
    let sound = exec_sound::sound(rig, cycles, st);
    exec_refusals::of_run(sound, st.running)?;
    let t = st.running as usize;
    let off = st.finish(rig);
    Ok(exec_again::settle_again(rig, st, off, t))
}

// "Start: count 0, flags and conditions off, all tasks uninvoked; then task 1 is scheduled." What the state was does not matter.
pub fn start(rig: &Rig, cycles: &[Cycle; CYCLES], st: &mut State) -> Result<Report, Refusal>
    ensures { Begins rig.now cycles.now (outcome_of st.new result) }
{
    *st = State::blank();
    if !rig_whole::first_broken(rig, cycles).is_ok() {
        return Err(Refusal::RuleBroken);
    }
    let queue = exec_testing::scheduled(rig, st, FIRST_TASK);
    Ok(exec_outcome::settle(rig, st, queue))
}
