// Loops over the tables of who can start: which conditions stand as desired or can be brought there, which tasks that lets start. Each has
// its table as its contract.
#![tactic(auto)]

ghost use Rattle.std.specs.Prelude.{◌≡◌, length};
ghost use Rattle.start_tests.specs.Tables.{Fits, standing_of, brought_in, place_at, link_one, link_task, Kept, Linked, opened_in, able_in};
ghost use Rattle.start_tables.specs.Links.{tasks_of, places_of};

use arrayvec::ArrayVec;
use exec_running::INACTIVE;
use rig::Rig;
use rig_tables::{CONDITIONS, FLAG_PLACES, LINES, TASK_PLACES};

// The conditions that stand as desired. Nothing is stored or not stored by a test: many are compared at once.
pub fn standing(rig: &Rig, cond: &[u8; CONDITIONS]) -> [u8; CONDITIONS]
    ensures { result ≡ standing_of rig.now.present rig.now.desired cond.now }
{
    let mut table = [0u8; CONDITIONS];
    // An index: three tables are read and one is written at the same place.
    for i in 0..CONDITIONS {
        table[i] = u8::from(exec_conditions::stands(rig.present[i], cond[i], rig.desired[i]));
    }
    table
}

// A link that was kept: the task whose activation flag it is, and the place of the condition that it may bring there.
#[derive(Clone, Copy, Debug, PartialEq, Eq, Default)]
pub struct Link {
    pub task: u8,
    pub place: u16,
}

// One pass over the A lines: the conditions that can be brought there with no link are, and the links are kept. A link has what a further
// level asks for: each goes over the links alone.
pub fn link_lines(
    rig: &Rig,
    owner: &[u8; FLAG_PLACES],
    state: &[u8; TASK_PLACES],
    table: &mut [u8; CONDITIONS],
) -> ArrayVec<Link, LINES>
    requires { Fits rig.now.lines rig.now.line_task rig.now.line_pos rig.now.line_flag owner.now }
    ensures { (table.new ≡ brought_in rig.now.lines rig.now.line_task rig.now.line_pos rig.now.line_flag rig.now.desired owner.now state.now table.old) × Kept rig.now.lines (link_one rig.now.line_task rig.now.line_pos rig.now.line_flag rig.now.desired owner.now state.now) (link_task rig.now.line_flag owner.now) (place_at rig.now.line_task rig.now.line_pos) (length result.items) (tasks_of result.items) (places_of result.items) }
{
    let mut links = ArrayVec::new();
    // An index: three tables are read at the same place.
    for k in 0..rig.lines as usize {
        let i = rig_tables::place_of(rig.line_task[k], rig.line_pos[k]);
        let want = rig.desired[i];
        let whose = owner[rig.line_flag[k] as usize];
        if start_tests::helps(state, want, whose) {
            table[i] = 1;
        } else if start_tests::is_link(state, want, whose) {
            let link = Link {
                task: whose - 1,
                place: i as u16,
            };
            links.push(link);
        }
    }
    links
}

// The conditions with a link to a task that can start are brought there.
pub fn open_links(links: &[Link], can: &[u8; TASK_PLACES], table: &mut [u8; CONDITIONS])
    requires { Linked (length links.now) (tasks_of links.now) (places_of links.now) }
    ensures { table.new ≡ opened_in (length links.now) (tasks_of links.now) (places_of links.now) can.now table.old }
{
    for link in links {
        if can[link.task as usize] == 1 {
            table[link.place as usize] = 1;
        }
    }
}

// The inactive tasks all of whose conditions are 1.
pub fn able(state: &[u8; TASK_PLACES], table: &[u8; CONDITIONS]) -> [u8; TASK_PLACES]
    ensures { result ≡ able_in state.now table.now }
{
    let mut can = [0u8; TASK_PLACES];
    // An index: it is the task.
    for t in 0..TASK_PLACES {
        if state[t] == INACTIVE && start_tests::clear(table, t) {
            can[t] = 1;
        }
    }
    can
}
