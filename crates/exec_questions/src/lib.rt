// Questions on a record. They need no running task, and the record is what it was.
#![tactic(auto)]

ghost use Rattle.std.specs.Prelude.{[]};
ghost use Rattle.rules.specs.Calls.{next_waking, read_overruns};
ghost use Rattle.exec_outcome.specs.Outcome.{outcome_of, Tells};

use exec_outcome::Report;
use exec_state::{State, TIME_CHAIN};
use refusals::Refusal;
use rig::{Cycle, Rig};
use rig_tables::CYCLES;

// "the lowest waking count among tasks waiting on time, read at the head of the time chain": all who wait there are in order of their
// waking counts. An empty chain's anchor is linked to itself; then the answer is 0, which is no waking count.
pub fn next_waking(rig: &Rig, cycles: &[Cycle; CYCLES], st: &State) -> Result<Report, Refusal>
    ensures { Tells rig.now cycles.now st.now next_waking (outcome_of st.now result) [] }
{
    if !exec_sound::sound(rig, cycles, st) {
        return Err(Refusal::NotSound);
    }
    let head = st.links.next[TIME_CHAIN] as usize;
    if head == TIME_CHAIN {
        return Ok(Report::of_value(0));
    }
    let count = st.wake[head];
    Ok(Report::of_value(count))
}

// "A call reads it for any task, with no running task needed. Refusals: 12, then 6."
pub fn overruns(
    rig: &Rig,
    cycles: &[Cycle; CYCLES],
    st: &State,
    task: u32,
) -> Result<Report, Refusal>
    ensures { Tells rig.now cycles.now st.now (read_overruns task) (outcome_of st.now result) [] }
{
    let sound = exec_sound::sound(rig, cycles, st);
    exec_asking::of_asked(sound, rig.tasks, task)?;
    let t = task as usize;
    let number = st.overruns[t] as u32;
    Ok(Report::of_value(number))
}
