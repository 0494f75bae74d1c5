// The soundness check of a record, in time linear in its size.
#![tactic(auto)]

ghost use Rattle.std.specs.Prelude.{◌≡◌, true, ◌↔◌, ◌≤◌};
ghost use Rattle.laws.specs.All.{all_of};
ghost use Rattle.exec_sound.specs.Sound.{SoundParts};
ghost use Rattle.exec_sound.specs.Laws.Check.{Placed, table_tests, Sizes, ChainsSound};

use exec_running::DISPATCHABLE;
use exec_state::State;
use rig::{Cycle, Rig};
use rig_tables::{CYCLES, TASKS};

// "count up to 2,147,483,647"
const LAST_COUNT: u32 = 2147483647;
// The last value of a flag: on.
const ON: u8 = 1;
// The anchor of the time chain.
const TIME_CHAIN: usize = 65;

// The tests of the soundness check over the tables, each with its own way out: joined by `&&`, the proof would have to take apart, at each
// test, how it was come to (what `tree` asks, `within` found).
#[tactic(auto, unfolding(crate::specs::Laws::Check::table_tests_of, laws::specs::All::all_of))]
fn tables_ok<'a>(rig: &'a Rig, st: &'a State) -> bool
    requires { Placed rig.now.tasks rig.now.controller rig.now.activation }
    ensures tests { result ≡ all_of (table_tests rig.now st.now) }
    ensures sizes { result ≡ true → Sizes st.now }
{
    let many = rig.tasks as usize;
    let n = st.running as usize;
    if LAST_COUNT < st.count {
        return false;
    }
    if !sound_tables::within(&st.state, many, DISPATCHABLE) {
        return false;
    }
    if !sound_tasks::tree(&rig.controller, &st.state, many) {
        return false;
    }
    if !sound_tables::within(&st.value, rig.flags as usize, ON) {
        return false;
    }
    if !sound_tables::conds(&rig.present, &st.cond) {
        return false;
    }
    if !sound_tables::empty(&st.wake, many) {
        return false;
    }
    if !sound_tables::overruns(&st.overruns, many) {
        return false;
    }
    if !sound_tasks::flags(&rig.activation, &st.state, &st.value, many) {
        return false;
    }
    if !sound_tasks::waits(&st.state, &st.links.on) {
        return false;
    }
    if TASKS < n {
        return false;
    }
    n == exec_running::chosen(rig, &st.state, n)
}

// The links hold chains, and the time chain is in order of waking count, all above the count.
fn chains_ok(st: &State) -> bool
    requires { st.now.count ≤ 2147483647 }
    ensures { (result ≡ true) ↔ ChainsSound st.now.count st.now.wake st.now.links }
{
    sound_chains::sound(&st.links)
        && chain_tests::in_order(&st.links, &st.wake, TIME_CHAIN, st.count + 1)
}

// Whether the record of these parts is sound: the rig's rules, the tests over the tables, the chains.
pub fn sound(rig: &Rig, cycles: &[Cycle; CYCLES], st: &State) -> bool
    ensures { (result ≡ true) ↔ SoundParts rig.now cycles.now st.now }
{
    rig_whole::first_broken(rig, cycles).is_ok() && tables_ok(rig, st) && chains_ok(st)
}
