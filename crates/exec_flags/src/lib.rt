// Signal and reading of a flag.
#![tactic(auto)]

ghost use Rattle.std.specs.Prelude.{[]};
ghost use Rattle.rules.specs.Calls.{signal, read_flag};
ghost use Rattle.laws.specs.Bits.{bit};
ghost use Rattle.exec_outcome.specs.Outcome.{outcome_of, Tells};

use exec_outcome::Report;
use exec_queue::Queue;
use exec_state::State;
use refusals::Refusal;
use rig::{Cycle, Rig};
use rig_tables::CYCLES;

// "Signal: the flag and value are queued."
pub fn signal(
    rig: &Rig,
    cycles: &[Cycle; CYCLES],
    st: &mut State,
    flag: u32,
    value: bool,
) -> Result<Report, Refusal>
    ensures { Tells rig.now cycles.now st.old (signal flag (bit value)) (outcome_of st.new result) [] }
{
    let sound = exec_sound::sound(rig, cycles, st);
    exec_refusals::of_signal(sound, rig, cycles, st.running, flag)?;
    let mut queue = Queue::empty();
    queue.push(flag as u8, u8::from(value));
    Ok(exec_outcome::settle(rig, st, queue))
}

// The value of the flag is answered.
pub fn read_flag(
    rig: &Rig,
    cycles: &[Cycle; CYCLES],
    st: &State,
    flag: u32,
) -> Result<Report, Refusal>
    ensures { Tells rig.now cycles.now st.now (read_flag flag) (outcome_of st.now result) [] }
{
    let sound = exec_sound::sound(rig, cycles, st);
    exec_refusals::of_flag(sound, rig, cycles, st.running, flag)?;
    let value = exec_refusals::look(&st.value, flag);
    Ok(Report::of_value(value as u32))
}
