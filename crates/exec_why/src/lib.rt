// Why won't it start? The question on a record. It needs no running task, and the record is what it was.
#![tactic(auto)]

ghost use Rattle.std.specs.Prelude.{[]};
ghost use Rattle.rules.specs.Calls.{why_not};
ghost use Rattle.exec_outcome.specs.Outcome.{outcome_of, Tells};

use exec_outcome::Report;
use exec_state::State;
use refusals::Refusal;
use rig::{Cycle, Rig};
use rig_tables::CYCLES;

// "It needs no running task. Refusals: 12, then 6, then 8 if the task isn't inactive, then 11 for d above 3." What is told is the position of
// the lowest condition that blocks; 16, which is no position, says yes.
pub fn why_not(
    rig: &Rig,
    cycles: &[Cycle; CYCLES],
    st: &State,
    task: u32,
    links: u32,
) -> Result<Report, Refusal>
    ensures { Tells rig.now cycles.now st.now (why_not task links) (outcome_of st.now result) [] }
{
    let sound = exec_sound::sound(rig, cycles, st);
    exec_asking::of_why(sound, rig.tasks, &st.state, task, links)?;
    let position = exec_starting::lowest_blocking(rig, st, task as usize, links as usize);
    Ok(Report::of_value(position))
}
