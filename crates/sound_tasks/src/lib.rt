// The loops of the soundness check over tasks, their controllers, chains and activation flags: each over single tables, with the test that it computes
// as its contract.
#![tactic(auto)]

ghost use Rattle.std.specs.Prelude.{◌≡◌, not, ◌||◌, ℕ, ◌<◌, ◌≤◌, eqb, get_or};
ghost use Rattle.rules.specs.State.{active};
ghost use Rattle.rules.specs.Soundness.{Within};
ghost use Rattle.sound_tables.specs.Tests.{tree_b, waits_b, flags_b};

use exec_running::{UNINVOKED, WAITING};
use rig_tables::{FLAG_PLACES, TASK_PLACES};

const FIRST_TASK: usize = 1;

fn tree_ok(t: usize, state: u8, above: u8) -> bool
    ensures { result ≡ (eqb t 1 || (eqb state 0 || not (eqb above 0))) }
{
    t == FIRST_TASK || state == UNINVOKED || above != UNINVOKED
}

// Each invoked task but task 1 has an invoked controller. Beyond the last task none is invoked.
pub fn tree<'a>(
    controller: &'a [u8; TASK_PLACES],
    states: &'a [u8; TASK_PLACES],
    many: usize,
) -> bool
    requires { ((t : ℕ) → t < 65 → get_or controller.now t 0 < 65) × (Within many states.now × (many ≤ 64)) }
    ensures { result ≡ tree_b controller.now states.now }
{
    for t in 0..many + 1 {
        if !tree_ok(t, states[t], states[controller[t] as usize]) {
            return false;
        }
    }
    true
}

// Who is waiting is in a chain, and no other is. What differs is joined and looked at once.
pub fn waits<'a>(states: &'a [u8; TASK_PLACES], on: &'a [u16; TASK_PLACES]) -> bool
    ensures { result ≡ waits_b states.now on.now }
{
    let mut faults: u16 = 0;
    for t in 0..TASK_PLACES {
        let waits = u16::from(states[t] == WAITING);
        let held = u16::from(on[t] != 0);
        faults |= waits ^ held;
    }
    faults == 0
}

fn active_of(state: u8) -> u8
    ensures { result ≡ active state }
{
    u8::from(WAITING <= state)
}

fn flag_ok(activation: u8, value: u8, state: u8) -> bool
    ensures { result ≡ (eqb activation 0 || eqb value (active state)) }
{
    activation == 0 || value == active_of(state)
}

// An activation flag is on exactly when its task is active. Beyond the last task none has one.
pub fn flags<'a>(
    activation: &'a [u8; TASK_PLACES],
    states: &'a [u8; TASK_PLACES],
    values: &'a [u8; FLAG_PLACES],
    many: usize,
) -> bool
    requires { ((t : ℕ) → t < 65 → get_or activation.now t 0 < 129) × (Within many activation.now × (many ≤ 64)) }
    ensures { result ≡ flags_b activation.now states.now values.now }
{
    for t in 0..many + 1 {
        if !flag_ok(activation[t], values[activation[t] as usize], states[t]) {
            return false;
        }
    }
    true
}
