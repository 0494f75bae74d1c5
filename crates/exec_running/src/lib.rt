// Who runs: the best by rank, and whether the task that ran goes on.
#![tactic(auto)]

ghost use Rattle.std.specs.Prelude.{◌≡◌, not, ◌&&◌, ◌||◌, ◌+◌, ◌*◌, ◌≤◌, eqb, ltb, leb};
ghost use Rattle.rig_tables.specs.Tests.{at};
ghost use Rattle.rules.specs.Running.{best, chosen};

use rig::Rig;
use rig_tables::{TASK_PLACES, TASKS};

// "States: 0 uninvoked, 1 inactive, 2 waiting, 3 dispatchable." Numbers: C reads and writes them in the record.
pub const UNINVOKED: u8 = 0;

pub const INACTIVE: u8 = 1;

pub const WAITING: u8 = 2;

pub const DISPATCHABLE: u8 = 3;

// "Privileged tasks rank above all others, by priority among themselves."
pub fn rank(pv: u8, pr: u8) -> u32
    ensures { result ≡ 256 * pv + pr }
{
    256 * (pv as u32) + (pr as u32)
}

// A task of rank rt takes the place of b, of rank rb, when it is higher; 0 is no task.
pub fn better(b: usize, rb: u32, rt: u32) -> bool
    ensures { result ≡ (eqb b 0 || ltb rb rt) }
{
    b == 0 || rb < rt
}

pub fn stays(n: usize, s: u8, rb: u32, rn: u32) -> bool
    ensures { result ≡ (not (eqb n 0) && (eqb s 3 && leb rb rn)) }
{
    n != 0 && s == DISPATCHABLE && rb <= rn
}

// The dispatchable task of the highest rank, lowest number first; 0 for none, as in the record's `running`.
pub fn best(rig: &Rig, state: &[u8; TASK_PLACES]) -> usize
    ensures { (result ≡ best (at rig.now.privileged) (at rig.now.priority) state.now 64) × (result ≤ 64) }
{
    let mut b: usize = 0;
    for i in 0..TASKS {
        let t = i + 1;
        if state[t] == DISPATCHABLE {
            let rb = rank(rig.privileged[b], rig.priority[b]);
            let rt = rank(rig.privileged[t], rig.priority[t]);
            if better(b, rb, rt) {
                b = t;
            }
        }
    }
    b
}

// Who runs: the task n that ran, or the best.
pub fn chosen(rig: &Rig, state: &[u8; TASK_PLACES], n: usize) -> usize
    requires { n ≤ 64 }
    ensures { (result ≡ chosen (at rig.now.privileged) (at rig.now.priority) state.now n) × (result ≤ 64) }
{
    let b = best(rig, state);
    let rb = rank(rig.privileged[b], rig.priority[b]);
    let rn = rank(rig.privileged[n], rig.priority[n]);
    if stays(n, state[n], rb, rn) { n } else { b }
}
