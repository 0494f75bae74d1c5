// A task with its descendants: who they are, and that they become uninvoked and leave their chains.
#![tactic(auto)]

ghost use Rattle.std.specs.Prelude.{◌≡◌, cond, ◌||◌, ◌<◌, ◌≤◌, eqb};
ghost use Rattle.chains.specs.Held.{at, HoldsChains};
ghost use Rattle.rules.specs.Family.{family, cleared};
ghost use Rattle.exec_family.specs.Post.{Controllers, Left, Deserted};

use chains::Links;
use exec_running::UNINVOKED;
use rig_tables::{TASK_PLACES, TASKS};

// The mark of task u in the family of task t, by its controller's mark.
pub fn mark(u: usize, t: usize, above: u8) -> u8
    ensures { result ≡ cond (eqb u t || eqb above 1) 1 0 }
{
    u8::from(u == t || above == 1)
}

// Task t and all its descendants are marked 1.
pub fn family(controller: &[u8; TASK_PLACES], t: usize) -> [u8; TASK_PLACES]
    requires { Controllers controller.now }
    ensures { result ≡ family (at controller.now) t }
{
    let mut marks = [0u8; TASK_PLACES];
    for i in 0..TASKS {
        let u = i + 1;
        let c = controller[u] as usize;
        let above = marks[c];
        marks[u] = mark(u, t, above);
    }
    marks
}

// The marked tasks become uninvoked.
pub fn uninvoke(marks: &[u8; TASK_PLACES], state: &mut [u8; TASK_PLACES])
    ensures { state.new ≡ cleared marks.now state.old }
{
    for i in 0..TASKS {
        let t = i + 1;
        if marks[t] == 1 {
            state[t] = UNINVOKED;
        }
    }
}

// Task t is taken out of its chain, if it is in one.
pub fn leave(l: &mut Links, t: usize)
    requires holds_chains { HoldsChains l.old }
    requires t_nonzero { (0 < t) × (t ≤ 64) }
    ensures { Left l.old t l.new }
{
    if l.on[t] != 0 {
        chains::unlink(l, t);
    }
}

// The marked tasks leave their chains.
pub fn desert(l: &mut Links, marks: &[u8; TASK_PLACES])
    requires { HoldsChains l.old }
    ensures { Deserted l.old marks.now l.new }
{
    for i in 0..TASKS {
        let t = i + 1;
        if marks[t] == 1 {
            leave(l, t);
        }
    }
}
