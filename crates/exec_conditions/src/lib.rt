// Conditions: what they take when their task is relaxed or a flag is served, and whether a task is ready. Each loop has the rule that
// it computes as its contract.
#![tactic(auto)]

ghost use Rattle.std.specs.Prelude.{◌≡◌, cond, not, ◌&&◌, ◌||◌, ◌+◌, ◌-◌, ◌≤◌, eqb};
ghost use Rattle.rig_tables.specs.Tests.{at};
ghost use Rattle.laws.specs.Any.{any};
ghost use Rattle.rules.specs.Conditions.{relax, met, drive, names};
ghost use Rattle.exec_conditions.specs.Lines.{Lines, marked, past};

use exec_running::INACTIVE;
use rig::Rig;
use rig_tables::{CONDITIONS, LINES, POSITIONS, TASK_PLACES};

// A lines are passed over in blocks of sixteen.
const BLOCK: usize = 16;

pub fn undesired(d: u8) -> u8
    ensures { result ≡ 1 - d }
{
    u8::from(d == 0)
}

pub fn loose(has: u8, lat: u8) -> bool
    ensures { result ≡ (eqb has 1 && eqb lat 0) }
{
    has == 1 && lat == 0
}

pub fn stands(has: u8, c: u8, d: u8) -> bool
    ensures { result ≡ (not (eqb has 1) || eqb c d) }
{
    has != 1 || c == d
}

pub fn both(a: u8, t: u8, b: u8, f: u8) -> bool
    ensures { result ≡ (eqb a t && eqb b f) }
{
    a == t && b == f
}

// Unlatched conditions of task t take the undesired value.
pub fn relax(rig: &Rig, t: usize, cond: &mut [u8; CONDITIONS])
    requires { t ≤ 64 }
    ensures { cond.new ≡ relax (at rig.now.present) (at rig.now.latched) (at rig.now.desired) t cond.old }
{
    for p in 0..POSITIONS {
        // An index: three tables are read and one is written at the same place.
        let i = POSITIONS * t + p;
        if loose(rig.present[i], rig.latched[i]) {
            cond[i] = undesired(rig.desired[i]);
        }
    }
}

// Whether all conditions of task t are as desired.
pub fn met(rig: &Rig, t: usize, cond: &[u8; CONDITIONS]) -> bool
    requires { t ≤ 64 }
    ensures { result ≡ met (at rig.now.present) (at rig.now.desired) t cond.now }
{
    for p in 0..POSITIONS {
        // An index: three tables are read at the same place.
        let i = POSITIONS * t + p;
        if !stands(rig.present[i], cond[i], rig.desired[i]) {
            return false;
        }
    }
    true
}

// Every condition with an A line of the flag f takes v, and its task is marked in `named`: who has the flag in a condition is known from
// this one pass. Few lines are of one flag: sixteen are passed over at once.
pub fn drive(rig: &Rig, f: u8, v: u8, cond: &mut [u8; CONDITIONS], named: &mut [u8; TASK_PLACES])
    requires { Lines rig.now.lines rig.now.line_task rig.now.line_pos }
    ensures { (cond.new ≡ drive rig.now.lines (at rig.now.line_task) (at rig.now.line_pos) (at rig.now.line_flag) f v cond.old) × (named.new ≡ marked rig.now.lines (at rig.now.line_task) (at rig.now.line_flag) f named.old) }
{
    let n = rig.lines as usize;
    let mut k: usize = 0;
    // A while, not a range by steps: what is left over begins where it ends.
    while k + BLOCK <= n {
        if named_from(&rig.line_flag, k, f) {
            drive_from(rig, k, BLOCK, f, v, cond, named);
        }
        k += BLOCK;
    }
    drive_from(rig, k, n - k, f, v, cond, named);
}

// The same of m lines from line k on.
fn drive_from(
    rig: &Rig,
    k: usize,
    m: usize,
    f: u8,
    v: u8,
    cond: &mut [u8; CONDITIONS],
    named: &mut [u8; TASK_PLACES],
)
    requires { Lines (k + m) rig.now.line_task rig.now.line_pos }
    ensures { (cond.new ≡ drive m (past k rig.now.line_task) (past k rig.now.line_pos) (past k rig.now.line_flag) f v cond.old) × (named.new ≡ marked m (past k rig.now.line_task) (past k rig.now.line_flag) f named.old) }
{
    for i in 0..m {
        // An index: three tables are read at the same place.
        let l = k + i;
        if rig.line_flag[l] == f {
            let t = rig.line_task[l] as usize;
            let p = rig.line_pos[l] as usize;
            cond[POSITIONS * t + p] = v;
            named[t] = 1;
        }
    }
}

// Whether one of the sixteen lines from line k on is of flag f. All sixteen are looked at: so they are compared at once.
fn named_from(line_flag: &[u8; LINES], k: usize, f: u8) -> bool
    requires { k + 16 ≤ 1024 }
    ensures { result ≡ any 16 (λ i. eqb (past k line_flag.now i) f) }
{
    let mut found: u8 = 0;
    for i in 0..BLOCK {
        if line_flag[k + i] == f {
            found = 1;
        }
    }
    found == 1
}

// Whether task t has flag f in a condition.
pub fn names(rig: &Rig, t: u8, f: u8) -> bool
    requires { rig.now.lines ≤ 1024 }
    ensures { result ≡ names rig.now.lines (at rig.now.line_task) (at rig.now.line_flag) t f }
{
    for k in 0..rig.lines as usize {
        // An index: two tables are read at the same place.
        if both(rig.line_task[k], t, rig.line_flag[k], f) {
            return true;
        }
    }
    false
}

// An inactive task with flag f in a condition and all conditions as desired.
pub fn ready(rig: &Rig, t: usize, f: u8, cond: &[u8; CONDITIONS], s: u8) -> bool
    requires { (rig.now.lines ≤ 1024) × (t ≤ 64) }
    ensures { result ≡ (eqb s 1 && (names rig.now.lines (at rig.now.line_task) (at rig.now.line_flag) t f && met (at rig.now.present) (at rig.now.desired) t cond.now)) }
{
    s == INACTIVE && met(rig, t, cond) && names(rig, t as u8, f)
}
