// Why won't it start? "Tasks ask about conditions and conditions about tasks, and each link lowers d."
#![tactic(auto)]

ghost use Rattle.std.specs.Prelude.{◌≡◌, ◌≤◌, length};
ghost use Rattle.start_tests.specs.Tables.{Linked};
ghost use Rattle.start_tables.specs.Links.{tasks_of, places_of};
ghost use Rattle.start_levels.specs.Levels.{conditions_at, tasks_at, Sized, ReadOff};

use exec_state::State;
use rig::Rig;
use rig_tables::{CONDITIONS, POSITIONS, TASK_PLACES};
use start_tables::Link;

// A condition over any of its flags, all conditions at once: 1 for those that stand as desired or can be brought there within d links. `base` has
// those that need no link. One that desires on asks for the tasks whose activation flags are its links, within one link less; where nobody
// can start, no link is gone through.
#[cycle(conditions_within_tasks_within)]
fn conditions_within(
    links: &[Link],
    state: &[u8; TASK_PLACES],
    base: &[u8; CONDITIONS],
    d: usize,
) -> [u8; CONDITIONS]
    requires { Linked (length links.now) (tasks_of links.now) (places_of links.now) }
    ensures { result ≡ conditions_at (tasks_of links.now) (places_of links.now) (length links.now) state.now base.now d }
{
    let mut table = *base;
    if d == 0 {
        return table;
    }
    let e = d - 1;
    let can = tasks_within(links, state, base, e);
    if start_tests::nobody(&can) {
        return table;
    }
    start_tables::open_links(links, &can, &mut table);
    table
}

// A task over all its conditions, all tasks at once: 1 for the inactive ones that can start within d links.
#[cycle(conditions_within_tasks_within)]
fn tasks_within(
    links: &[Link],
    state: &[u8; TASK_PLACES],
    base: &[u8; CONDITIONS],
    d: usize,
) -> [u8; TASK_PLACES]
    requires { Linked (length links.now) (tasks_of links.now) (places_of links.now) }
    ensures { result ≡ tasks_at (tasks_of links.now) (places_of links.now) (length links.now) state.now base.now d }
{
    let table = conditions_within(links, state, base, d);
    start_tables::able(state, &table)
}

// The lowest condition of task t that blocks within d links, by its position; 16, which is no position, for none: it is told so.
pub fn lowest_blocking(rig: &Rig, st: &State, t: usize, d: usize) -> u32
    requires { Sized rig.now × (t ≤ 64) }
    ensures { ReadOff rig.now st.now t d result }
{
    let owner = rig_activation::flag_owners(&rig.activation);
    let mut base = start_tables::standing(rig, &st.cond);
    let links = start_tables::link_lines(rig, &owner, &st.state, &mut base);
    let table = conditions_within(links.as_slice(), &st.state, &base, d);
    start_tests::lowest(&table, t).unwrap_or(POSITIONS) as u32
}
