// The tests of a rig's activation flags: each serves one task and is no minor-cycle flag. What would compare every task with every
// other goes by a table of owners.
#![tactic(auto)]

ghost use Rattle.std.specs.Prelude.{◌≡◌, ◌||◌, ℕ, ◌+◌, ◌≤◌, ◌<◌, eqb};
ghost use Rattle.laws.specs.Owners.{owners};
ghost use Rattle.rig_tables.specs.Tests.{at, not_minor_b, marked};
ghost use Rattle.rig_activation.specs.Laws.Served.{served_b};

use rig_tables::{FLAG_PLACES, TASK_PLACES};

// Whose activation flag each flag is: the task's number and 1 more, 0 for none.
#[tactic(auto, using(laws::specs::Laws::Iter::iter_zero, laws::specs::Laws::Iter::iter_step), unfolding(laws::specs::Owners::owners))]
pub fn flag_owners(activation: &[u8; TASK_PLACES]) -> [u8; FLAG_PLACES]
    requires { (t : ℕ) → t < 65 → at activation.now t ≤ 128 }
    ensures { result ≡ owners 65 (at activation.now) 129 }
{
    let mut table = [0u8; FLAG_PLACES];
    for (t, f) in activation.iter().enumerate() {
        table[*f as usize] = (t + 1) as u8;
    }
    table
}

// Each activation flag is owned by the task that has it.
pub fn served(activation: &[u8; TASK_PLACES], table: &[u8; FLAG_PLACES]) -> bool
    requires { (t : ℕ) → t < 65 → at activation.now t ≤ 128 }
    ensures { result ≡ served_b activation.now table.now }
{
    activation
        .iter()
        .enumerate()
        .all(|(t, f)| *f == 0 || table[*f as usize] as usize == t + 1)
}

// No activation flag is marked.
pub fn unmarked(activation: &[u8; TASK_PLACES], table: &[u8; FLAG_PLACES]) -> bool
    requires { (t : ℕ) → t < 65 → at activation.now t ≤ 128 }
    ensures { result ≡ not_minor_b activation.now (marked table.now) }
{
    activation.iter().all(|f| table[*f as usize] == 0)
}
