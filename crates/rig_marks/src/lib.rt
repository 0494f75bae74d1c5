// What the rules over a whole file ask of the lines that are held: that no number is above the RIG line's, a mark for each task that has a T line,
// and how many M lines each cycle has.
#![tactic(auto)]

ghost use Rattle.std.specs.Prelude.{◌≡◌, ℕ, ◌<◌, eqb, ltb, length, get_or};
ghost use Rattle.laws.specs.All.{all};
ghost use Rattle.rig_lines.specs.Whole.{is_task_line, is_flag_line, how_many, every, line_under};
ghost use Rattle.rig_held.specs.Held.{held_line, held};
ghost use Rattle.rig_marks.specs.Marks.{marked_one, few_one};

use rig_held::Line;
use rig_lines::{Kind, Names};
use rig_tables::CYCLES;

// Whether no number of the line that names a task or a flag is above the RIG line's.
fn line_under(line: &Line, tasks: u8, flags: u8) -> bool
    ensures { result ≡ line_under tasks flags (held_line line.now) }
{
    let names = line.kind.names();
    for j in 0..line.kind.count() {
        let x = line.numbers[j];
        let most = match names[j] {
            Names::Task => tasks,
            Names::Flag => flags,
            Names::Other => 255,
        };
        if most < x {
            return false;
        }
    }
    true
}

// Whether that is so of each line.
pub fn none_above(lines: &[Line], tasks: u8, flags: u8) -> bool
    ensures { result ≡ every (line_under tasks flags) (held lines.now) }
{
    for line in lines {
        if !line_under(line, tasks, flags) {
            return false;
        }
    }
    true
}

// 1 at each task that has a T line.
pub fn task_lines(lines: &[Line]) -> [u8; 256]
    ensures { (t : ℕ) → t < 256 → eqb (get_or result t 0) 1 ≡ ltb 0 (how_many (is_task_line t) (held lines.now)) }
{
    let mut has = [0u8; 256];
    for line in lines {
        if line.kind == Kind::Task {
            has[line.numbers[0] as usize] = 1;
        }
    }
    has
}

// Whether each task is marked.
pub fn each_task(has: [u8; 256], tasks: u8) -> bool
    ensures { (result ≡ all tasks (marked_one has)) × (tasks < 256) }
{
    for i in 0..tasks as usize {
        if has[i + 1] != 1 {
            return false;
        }
    }
    true
}

// How many M lines each cycle has.
pub fn flag_counts(lines: &[Line]) -> [usize; 256]
    ensures { (c : ℕ) → c < 256 → get_or result c 0 ≡ how_many (is_flag_line c) (held lines.now) }
{
    let mut many = [0usize; 256];
    for line in lines {
        if line.kind == Kind::Flag {
            let c = line.numbers[0] as usize;
            many[c] += 1;
        }
    }
    many
}

// Whether no cycle has more than fifteen.
pub fn few_flags(many: [usize; 256]) -> bool
    ensures { result ≡ all 64 (few_one many) }
{
    for c in 0..CYCLES {
        if 15 < many[c] {
            return false;
        }
    }
    true
}
