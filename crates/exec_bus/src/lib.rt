// The tick with its bus words, and compool blocks in the lent area.
#![tactic(auto)]

ghost use Rattle.rules.specs.Calls.{tick, read_block, write_block};
ghost use Rattle.exec_outcome.specs.Outcome.{outcome_of, Tells};

use exec_outcome::Report;
use exec_state::State;
use refusals::Refusal;
use rig::{Cycle, Rig};
use rig_tables::CYCLES;

// "the count rises by one; tasks due at it become dispatchable; the M list .. is queued .. and served; bus words are
// written and their number answered"
pub fn tick(
    rig: &Rig,
    cycles: &[Cycle; CYCLES],
    st: &mut State,
    out: &mut [u16],
) -> Result<Report, Refusal>
    ensures { Tells rig.now cycles.now st.old (tick out.old) (outcome_of st.new result) out.new }
{
    let sound = exec_sound::sound(rig, cycles, st);
    exec_refusals::of_tick(sound, st.count, out.len())?;
    let queue = exec_waking::ticked(st, cycles);
    let cycle = exec_waking::cycle_at(cycles, st.count);
    let mut report = exec_outcome::settle_in(rig, &cycle, st, queue);
    let words = compool::bus_words(rig, st.count, out);
    report.words = words as u32;
    Ok(report)
}

// "read copies the data out"
pub fn read_block(
    rig: &Rig,
    cycles: &[Cycle; CYCLES],
    st: &State,
    k: u32,
    area: &[u16],
    buffer: &mut [u16],
) -> Result<Report, Refusal>
    ensures { Tells rig.now cycles.now st.now (read_block k area.now buffer.old) (outcome_of st.now result) buffer.new }
{
    let sound = exec_sound::sound(rig, cycles, st);
    exec_refusals::of_block(sound, rig, st.running, k, area.len(), buffer.len())?;
    compool::read_block(area, k as usize, buffer);
    Ok(Report::of_value(0))
}

// "Write stores the data and the count modulo 65,536 as tag and touches no other word"
pub fn write_block(
    rig: &Rig,
    cycles: &[Cycle; CYCLES],
    st: &State,
    k: u32,
    area: &mut [u16],
    words: &[u16],
) -> Result<Report, Refusal>
    ensures { Tells rig.now cycles.now st.now (write_block k area.old words.now) (outcome_of st.now result) area.new }
{
    let sound = exec_sound::sound(rig, cycles, st);
    exec_refusals::of_block(sound, rig, st.running, k, area.len(), words.len())?;
    compool::write_block(st.count, k as usize, words, area);
    Ok(Report::of_value(0))
}
