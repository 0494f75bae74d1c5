// The test of a rig's controllers.
#![tactic(auto)]

ghost use Rattle.std.specs.Prelude.{◌≡◌, ◌&&◌, not, ◌+◌, ◌-◌, ◌≤◌, ◌<◌, eqb};
ghost use Rattle.rig_tables.specs.Tests.{at, climb, controllers_b};
ghost use Rattle.rig_controllers.specs.Laws.Climb.{Low};

use rig::Rig;
use rig_tables::TASK_PLACES;

// Up from task x, controller by controller, while the number is above c. Over all tasks of a right rig this takes no more
// steps than there are tasks, since the next task's path leaves out what was climbed past.
fn climbed(controller: &[u8; TASK_PLACES], c: usize, x: usize) -> usize
    requires { (x ≤ 64) × Low controller.now (x + 1) }
    ensures { result ≡ climb (at controller.now) c 64 x }
{
    let mut y = x;
    while c < y {
        y = controller[y] as usize;
    }
    y
}

fn controller_ok(controller: &[u8; TASK_PLACES], t: usize) -> bool
    requires { (1 < t) × ((t < 65) × Low controller.now t) }
    ensures { result
        ≡ (not (eqb (at controller.now t) 0)
        && eqb (climb (at controller.now) (at controller.now t) 64 (t - 1)) (at controller.now t)) }
{
    let c = controller[t] as usize;
    c != 0 && climbed(controller, c, t - 1) == c
}

// Task 1 has controller 0; every other controller is the previous task or one of that task's ancestors. A loop, no `all`: that the
// climb from a task ends rests on the tasks before it.
pub fn controllers(rig: &Rig) -> bool
    requires { (1 ≤ rig.now.tasks) × (rig.now.tasks ≤ 64) }
    ensures { result ≡ controllers_b rig.now.tasks rig.now.controller }
{
    if rig.controller[1] != 0 {
        return false;
    }
    for t in 2..=rig.tasks as usize {
        if !controller_ok(&rig.controller, t) {
            return false;
        }
    }
    true
}
