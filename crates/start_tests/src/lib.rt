// Tests of who can start: what a flag does for a condition, by its owner; whether a task's conditions are all 1, and which is the lowest
// that is not; whether nobody can start.
#![tactic(auto)]

ghost use Rattle.std.specs.Prelude.{◌≡◌, ◌≤◌, ◌<◌, unwrap_or};
ghost use Rattle.std.specs.Option.{IfSome};
ghost use Rattle.start_tests.specs.Tables.{helps, is_link, nobody, clear, lowest_in};

use exec_running::INACTIVE;
use rig_tables::{CONDITIONS, POSITIONS, TASK_PLACES};

// A flag that is nobody's activation flag: a number in the table of owners.
const NOBODY: u8 = 0;

// Whether a flag brings a condition where it is desired, with no link: one that is nobody's activation flag does. That is a plain flag, or
// a minor-cycle flag, which stands in no condition that desires off. Else an active task's brings it off.
pub fn helps(state: &[u8; TASK_PLACES], desired: u8, owner: u8) -> bool
    requires { owner ≤ 65 }
    ensures { result ≡ helps state.now desired owner }
{
    owner == NOBODY || desired != 1 && INACTIVE < state[owner as usize - 1]
}

// Whether a flag is a link of a condition: it desires on, and the flag is an inactive task's activation flag.
pub fn is_link(state: &[u8; TASK_PLACES], desired: u8, owner: u8) -> bool
    requires { owner ≤ 65 }
    ensures { result ≡ is_link state.now desired owner }
{
    owner != NOBODY && desired == 1 && state[owner as usize - 1] == INACTIVE
}

// Whether all of task t's conditions are 1. All sixteen are looked at: so they are compared at once.
pub fn clear(table: &[u8; CONDITIONS], t: usize) -> bool
    requires { t ≤ 64 }
    ensures { result ≡ clear table.now t }
{
    let first = POSITIONS * t;
    let mut bad: u8 = 0;
    for x in &table[first..first + POSITIONS] {
        if *x != 1 {
            bad = 1;
        }
    }
    bad == 0
}

// Whether nobody can start.
pub fn nobody(can: &[u8; TASK_PLACES]) -> bool
    ensures { result ≡ nobody can.now }
{
    rig_tables::at_most(can, 0)
}

// The lowest position of task t whose condition is not 1.
pub fn lowest(table: &[u8; CONDITIONS], t: usize) -> Option<usize>
    requires { t ≤ 64 }
    ensures told { unwrap_or result 16 ≡ lowest_in table.now t }
    ensures position { IfSome result (λ p. p < 16) }
{
    for p in 0..POSITIONS {
        if table[POSITIONS * t + p] != 1 {
            return Some(p);
        }
    }
    None
}
