// Lines looked for in a file, and what makes a line, or a task, the one that breaks a rule.
#![tactic(auto)]

ghost use Rattle.std.specs.Prelude.{◌≡◌, ◌≤◌, length};
ghost use Rattle.rig_tables.specs.Tests.{climb};
ghost use Rattle.rig_lines.specs.Line.{line_of};
ghost use Rattle.rig_lines.specs.File.{lines_of};
ghost use Rattle.rig_suspects.specs.Suspects.{lines_from, key_of, fits_key, look_in, task_key, flag_key, condition_key, controller_in, stray, shared, unused, task_count_of, task_missing, counted};

use rig_lines::Kind;

// No task has more ancestors than there are tasks.
const MOST_TASKS: usize = 64;

// What a line must be to be the one that is looked for: of this kind, with number `i` equal to x and number `j` equal to y.
#[derive(Debug, Clone, Copy, PartialEq, Eq)]
pub struct Key {
    pub kind: Kind,
    pub i: usize,
    pub x: u64,
    pub j: usize,
    pub y: u64,
}

#[tactic(auto, unfolding(crate::specs::Suspects::fits_key))]
fn fits(line: &[u8], key: Key) -> bool
    ensures { result ≡ fits_key (key_of key) (line_of line.now) }
{
    rig_shapes::has_kind(line, key.kind)
        && rig_shapes::number(line, key.i) == key.x
        && rig_shapes::number(line, key.j) == key.y
}

// Number `m` of the first line from place `from` on that fits the key; 0 where there is none: each caller asks what number stands there, and an
// Option would be made a number again at every call.
fn look(s: &[u8], from: usize, key: Key, m: usize) -> u64
    requires { from ≤ length s.now }
    ensures { result ≡ look_in (key_of key) m (lines_from s.now from) }
{
    let n = s.len();
    let mut at = from;
    while at < n {
        let e = lines::line_of(s, at);
        if e == n {
            return 0;
        }
        if fits(&s[at..e], key) {
            return rig_shapes::number(&s[at..e], m);
        }
        at = e + 1;
    }
    0
}

// The T line of a task.
fn task_key(t: u64) -> Key
    ensures { key_of result ≡ task_key t }
{
    Key {
        kind: Kind::Task,
        i: 0,
        x: t,
        j: 0,
        y: t,
    }
}

// A T line with an activation flag.
fn flag_key(f: u64) -> Key
    ensures { key_of result ≡ flag_key f }
{
    Key {
        kind: Kind::Task,
        i: 4,
        x: f,
        j: 4,
        y: f,
    }
}

// An A line of condition p of task t.
fn condition_key(t: u64, p: u64) -> Key
    ensures { key_of result ≡ condition_key t p }
{
    Key {
        kind: Kind::Line,
        i: 0,
        x: t,
        j: 1,
        y: p,
    }
}

// The controller on the T line of a task; 0 where it has none.
fn controller(s: &[u8], t: u64) -> u64
    ensures { result ≡ controller_in (lines_of s.now) t }
{
    look(s, 0, task_key(t), 1)
}

// Up from task x, controller by controller, while the number is above c, in at most k steps.
fn climbed(s: &[u8], c: u64, k: usize, x: u64) -> u64
    ensures { result ≡ climb (controller_in (lines_of s.now)) c k x }
{
    if k == 0 {
        return x;
    }
    if c < x {
        return climbed(s, c, k - 1, controller(s, x));
    }
    x
}

// A T line whose controller is neither the previous task nor one of its ancestors; task 1 has none.
pub fn is_stray(s: &[u8], line: &[u8]) -> bool
    ensures { result ≡ stray (lines_of s.now) (line_of line.now) }
{
    if !rig_shapes::has_kind(line, Kind::Task) {
        return false;
    }
    let t = rig_shapes::number(line, 0);
    let c = rig_shapes::number(line, 1);
    if t <= 1 {
        return c != 0;
    }
    c == 0 || climbed(s, c, MOST_TASKS, t - 1) != c
}

// A T line whose activation flag another one behind it has too.
#[tactic(auto, unfolding(crate::specs::Suspects::shared))]
pub fn is_shared(s: &[u8], line: &[u8], next: usize) -> bool
    requires { next ≤ length s.now }
    ensures { result ≡ shared (line_of line.now) (lines_from s.now next) }
{
    let f = rig_shapes::number(line, 4);
    rig_shapes::has_kind(line, Kind::Task) && f != 0 && look(s, next, flag_key(f), 4) == f
}

// A C line whose condition no A line names.
#[tactic(auto, unfolding(crate::specs::Suspects::unused), using(crate::specs::Laws::look_whole))]
pub fn is_unused(s: &[u8], line: &[u8]) -> bool
    ensures { result ≡ unused (lines_of s.now) (line_of line.now) }
{
    let key = condition_key(rig_shapes::number(line, 0), rig_shapes::number(line, 1));
    rig_shapes::has_kind(line, Kind::Condition) && look(s, 0, key, 0) == 0
}

// How many tasks the RIG line names.
fn task_count(s: &[u8]) -> u64
    ensures { result ≡ task_count_of (lines_of s.now) }
{
    let key = Key {
        kind: Kind::Rig,
        i: 0,
        x: 1,
        j: 0,
        y: 1,
    };
    look(s, 0, key, 1)
}

// The lowest task without a T line.
pub fn missing_task(s: &[u8]) -> Option<u64>
    ensures { result ≡ counted (task_missing (lines_of s.now)) }
{
    let n = task_count(s);
    for t in 0..n {
        if look(s, 0, task_key(t + 1), 0) != t + 1 {
            return Some(t + 1);
        }
    }
    None
}
