// The tests that a rig's entries beyond its counts are 0.
#![tactic(auto)]

ghost use Rattle.std.specs.Prelude.{◌≡◌, ◌≤◌, length};
ghost use Rattle.laws.specs.All.{all};
ghost use Rattle.rig_tables.specs.Tests.{condition_tasks_b, task_zeros_b, line_zeros_b};
ghost use Rattle.rig_zeros.specs.Laws.Passes.{zero_from, beyond_one};

use rig::Rig;
use rig_tables::{POSITIONS, TASK_PLACES};

// The entries are 0 from one place on.
#[tactic(auto, using(crate::specs::Laws::Passes::zeros_rest, crate::specs::Laws::Passes::past_zeros))]
fn zeros(table: &[u8], from: usize) -> bool
    ensures { result ≡ all (length table.now) (zero_from from table.now) }
{
    table.len() <= from || rig_tables::at_most(&table[from..], 0)
}

// No condition is of a task above the count.
pub fn condition_tasks(rig: &Rig) -> bool
    ensures { result ≡ condition_tasks_b rig.now.tasks rig.now.present }
{
    zeros(&rig.present[..POSITIONS], 0) && zeros(&rig.present, POSITIONS * (rig.tasks as usize + 1))
}

// A table by task has 0 at 0 and above the last task.
#[tactic(auto, using(crate::specs::Laws::Passes::beyond_each))]
fn beyond(table: &[u8; TASK_PLACES], tasks: u8) -> bool
    ensures { result ≡ all 65 (beyond_one tasks table.now) }
{
    table[0] == 0 && zeros(table, tasks as usize + 1)
}

#[tactic(auto, using(crate::specs::Laws::Passes::task_zeros_each))]
pub fn task_zeros(rig: &Rig) -> bool
    ensures { result
        ≡ task_zeros_b rig.now.tasks rig.now.controller rig.now.priority rig.now.privileged rig.now.activation }
{
    beyond(&rig.controller, rig.tasks)
        && beyond(&rig.priority, rig.tasks)
        && beyond(&rig.privileged, rig.tasks)
        && beyond(&rig.activation, rig.tasks)
}

#[tactic(auto, using(crate::specs::Laws::Passes::line_zeros_each))]
pub fn line_zeros(rig: &Rig) -> bool
    requires { rig.now.lines ≤ 1024 }
    ensures { result ≡ line_zeros_b rig.now.lines rig.now.line_task rig.now.line_pos rig.now.line_flag }
{
    let n = rig.lines as usize;
    zeros(&rig.line_task, n) && zeros(&rig.line_pos, n) && zeros(&rig.line_flag, n)
}
