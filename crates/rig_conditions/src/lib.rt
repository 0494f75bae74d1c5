// The tests of a rig's conditions: their values, and that A lines and conditions name each other. What would look for a line of every
// condition goes by a table of marks.
#![tactic(auto)]

ghost use Rattle.std.specs.Prelude.{◌≡◌, ◌+◌, ◌*◌, ◌≤◌};
ghost use Rattle.laws.specs.All.{all};
ghost use Rattle.rig_tables.specs.Tests.{named_b, conditions_b};
ghost use Rattle.rig_tables.specs.Lines.{Placed};
ghost use Rattle.rig_conditions.specs.Tables.{ZeroFrom, place_marks, matched_b};
ghost use Rattle.rig_conditions.specs.Passes.{under_one};

use rig::Rig;
use rig_tables::{CONDITIONS, POSITIONS};

// Each entry is at most the other table's at its place. Here and below a loop over a long table marks what fails and goes on: one
// that does not leave early tests many entries at once. An index: two tables are read at the same place.
#[tactic(auto, using(rig_tables::specs::Laws::Passes::steps))]
fn under(a: &[u8; CONDITIONS], b: &[u8; CONDITIONS]) -> bool
    ensures { result ≡ all 1040 (under_one a.now b.now) }
{
    let mut bad: u8 = 0;
    for i in 0..CONDITIONS {
        if b[i] < a[i] {
            bad = 1;
        }
    }
    bad == 0
}

#[tactic(auto, using(crate::specs::Passes::conditions_each))]
pub fn conditions(rig: &Rig) -> bool
    ensures { result ≡ conditions_b rig.now.present rig.now.latched rig.now.desired }
{
    rig_tables::at_most(&rig.present, 1)
        && under(&rig.latched, &rig.present)
        && under(&rig.desired, &rig.present)
}

// The conditions that A lines name, marked by 1.
#[tactic(auto, using(laws::specs::Laws::Iter::iter_zero, laws::specs::Laws::Iter::iter_step), unfolding(crate::specs::Tables::place_marks, laws::specs::Owners::marks))]
pub fn place_marks(rig: &Rig) -> [u8; CONDITIONS]
    requires { Placed rig.now.lines rig.now.line_task rig.now.line_pos }
    ensures { result ≡ place_marks rig.now.lines rig.now.line_task rig.now.line_pos }
{
    let mut table = [0u8; CONDITIONS];
    for k in 0..rig.lines as usize {
        table[rig_tables::place_of(rig.line_task[k], rig.line_pos[k])] = 1;
    }
    table
}

// The marked places are the conditions: each condition that an A line names has a C line, and each condition has an A line.
// Behind the last task's places there is neither.
#[tactic(auto, using(rig_tables::specs::Laws::Passes::steps, crate::specs::Laws::matched_end))]
pub fn matched(rig: &Rig, table: &[u8; CONDITIONS]) -> bool
    requires { (16 * (rig.now.tasks + 1) ≤ 1040)
        × (ZeroFrom (16 * (rig.now.tasks + 1)) rig.now.present
        × ZeroFrom (16 * (rig.now.tasks + 1)) table.now) }
    ensures { result ≡ matched_b rig.now.present table.now }
{
    let mut bad: u8 = 0;
    for p in 0..POSITIONS * (rig.tasks as usize + 1) {
        if rig.present[p] != table[p] {
            bad = 1;
        }
    }
    bad == 0
}

// Each condition that an A line names has a C line: which of the two rules is broken, where the marks are not the conditions.
pub fn names_present(rig: &Rig) -> bool
    requires { Placed rig.now.lines rig.now.line_task rig.now.line_pos }
    ensures { result ≡ named_b rig.now.lines rig.now.present rig.now.line_task rig.now.line_pos }
{
    (0..rig.lines as usize).all(|k| {
        let p = rig_tables::place_of(rig.line_task[k], rig.line_pos[k]);
        rig.present[p] == 1
    })
}
