// Waits of the running task: until a count, for a number of cycles, for a flag's value.
#![tactic(auto)]

ghost use Rattle.std.specs.Prelude.{◌≡◌, ◌&&◌, [], eqb};
ghost use Rattle.rules.specs.Calls.{wait_until, wait_for};
ghost use Rattle.laws.specs.Bits.{bit};
ghost use Rattle.exec_outcome.specs.Outcome.{outcome_of, Tells};
ghost use Rattle.exec_waits.specs.Laws.Waits.{flag_wait};

use exec_outcome::Report;
use exec_queue::Queue;
use exec_refusals::LAST_COUNT;
use exec_state::State;
use refusals::Refusal;
use rig::{Cycle, Rig};
use rig_tables::CYCLES;

// "if the waking count is at or below the count, no wait; else waiting"
pub fn wait_until(
    rig: &Rig,
    cycles: &[Cycle; CYCLES],
    st: &mut State,
    count: u32,
) -> Result<Report, Refusal>
    ensures { Tells rig.now cycles.now st.old (wait_until count) (outcome_of st.new result) [] }
{
    let sound = exec_sound::sound(rig, cycles, st);
    exec_refusals::of_count(sound, st.running, LAST_COUNT < count)?;
    if count <= st.count {
        return Ok(Report::of_value(0));
    }
    exec_waiting::wait_until(st, count);
    Ok(exec_outcome::settle(rig, st, Queue::empty()))
}

// The waking count is so many cycles from now: the true sum, which may be above every u32.
pub fn wait_for(
    rig: &Rig,
    cycles: &[Cycle; CYCLES],
    st: &mut State,
    many: u32,
) -> Result<Report, Refusal>
    ensures { Tells rig.now cycles.now st.old (wait_for many) (outcome_of st.new result) [] }
{
    let sound = exec_sound::sound(rig, cycles, st);
    let count = (st.count as u64) + (many as u64);
    exec_refusals::of_count(sound, st.running, (LAST_COUNT as u64) < count)?;
    if many == 0 {
        return Ok(Report::of_value(0));
    }
    exec_waiting::wait_until(st, count as u32);
    Ok(exec_outcome::settle(rig, st, Queue::empty()))
}

// "Latched wait for a flag's value: no wait if it has it. Unlatched: always waits for the next service of that flag with
// that value"
pub fn wait_on(
    rig: &Rig,
    cycles: &[Cycle; CYCLES],
    st: &mut State,
    latched: bool,
    flag: u32,
    value: bool,
) -> Result<Report, Refusal>
    ensures { Tells rig.now cycles.now st.old (flag_wait latched flag (bit value)) (outcome_of st.new result) [] }
{
    let sound = exec_sound::sound(rig, cycles, st);
    exec_refusals::of_flag(sound, rig, cycles, st.running, flag)?;
    let v = u8::from(value);
    if satisfied(latched, exec_refusals::look(&st.value, flag), v) {
        return Ok(Report::of_value(0));
    }
    exec_waiting::wait_on(st, flag as usize, v as usize);
    Ok(exec_outcome::settle(rig, st, Queue::empty()))
}

// Whether there is nothing to wait for: the value that is already there counts for a latched wait alone.
fn satisfied(latched: bool, has: u8, wanted: u8) -> bool
    ensures { result ≡ (latched && eqb has wanted) }
{
    latched && has == wanted
}
