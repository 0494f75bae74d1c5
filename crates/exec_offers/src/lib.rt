// A served flag is offered to the tasks.
#![tactic(auto)]

ghost use Rattle.std.specs.Prelude.{◌≤◌};
ghost use Rattle.exec_offers.specs.Post.{Heeds, Room};
ghost use Rattle.exec_offers.specs.Set.{tables_of};

use exec_queue::Queue;
use exec_state::{DISPATCHABLE, ON};
use rig::Rig;
use rig_tables::{CONDITIONS, TASK_PLACES, TASKS};

// Tasks 1 to 64, by rising number: each inactive one that is ready for flag f is activated. How many were.
pub fn offers(
    rig: &Rig,
    f: u8,
    cond: &mut [u8; CONDITIONS],
    state: &mut [u8; TASK_PLACES],
    queue: &mut Queue,
) -> u32
    requires n_bound { rig.now.lines ≤ 1024 }
    requires room { Room state.old queue.old }
    ensures { Heeds (tables_of rig.now) f cond.old state.old queue.old cond.new state.new (record { queue = queue.new; activated = result }) }
{
    let mut activated: u32 = 0;
    for i in 0..TASKS {
        let t = i + 1;
        if exec_conditions::ready(rig, t, f, cond, state[t]) {
            state[t] = DISPATCHABLE;
            exec_conditions::relax(rig, t, cond);
            queue.push(rig.activation[t], ON);
            activated += 1;
        }
    }
    activated
}
