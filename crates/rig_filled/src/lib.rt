// The rig of the lines that are held: the tasks, the rows, and the whole with the tables of rig_fill.
#![tactic(auto)]

ghost use Rattle.std.specs.Prelude.{◌≡◌, ◌≤◌, length};
ghost use Rattle.rig_lines.specs.Kinds.{kind_t, kind_b};
ghost use Rattle.rig_lines.specs.Whole.{number_of, is_kind, how_many};
ghost use Rattle.rig_held.specs.Held.{held, Begins};
ghost use Rattle.rig_fill.specs.OfLines.{stored, rig_from};

use rig_held::Line;
use rig_lines::Kind;
use rig_tables::{CONDITIONS, LINES, ROWS, TASK_PLACES};

// T lines.
fn fill_tasks(
    lines: &[Line],
    controller: &mut [u8; TASK_PLACES],
    priority: &mut [u8; TASK_PLACES],
    privileged: &mut [u8; TASK_PLACES],
    activation: &mut [u8; TASK_PLACES],
)
    ensures controller { controller.new ≡ stored (is_kind kind_t) (number_of 0) (number_of 1) controller.old (held lines.now) }
    ensures priority { priority.new ≡ stored (is_kind kind_t) (number_of 0) (number_of 2) priority.old (held lines.now) }
    ensures privileged { privileged.new ≡ stored (is_kind kind_t) (number_of 0) (number_of 3) privileged.old (held lines.now) }
    ensures activation { activation.new ≡ stored (is_kind kind_t) (number_of 0) (number_of 4) activation.old (held lines.now) }
{
    for line in lines {
        if line.kind != Kind::Task {
            continue;
        }
        let t = line.numbers[0] as usize;
        if TASK_PLACES <= t {
            continue;
        }
        controller[t] = line.numbers[1];
        priority[t] = line.numbers[2];
        privileged[t] = line.numbers[3];
        activation[t] = line.numbers[4];
    }
}

// B lines.
fn rows_from(lines: &[Line]) -> [rig::Row; ROWS]
    ensures { result ≡ (rig_from (held lines.now)).row }
{
    let none = rig::Row {
        sender: 0,
        sender_sub: 0,
        receiver: 0,
        receiver_sub: 0,
        words: 0,
        period: 0,
        phase: 0,
    };
    let mut row = [none; ROWS];
    let mut c: usize = 0;
    for line in lines {
        if line.kind != Kind::Row {
            continue;
        }
        let k = c;
        c += 1;
        if ROWS <= k {
            continue;
        }
        row[k] = rig::Row {
            sender: line.numbers[0],
            sender_sub: line.numbers[1],
            receiver: line.numbers[2],
            receiver_sub: line.numbers[3],
            words: line.numbers[4],
            period: line.numbers[5],
            phase: line.numbers[6],
        };
    }
    row
}

// The rig of the lines, of which the first is the RIG line.
pub fn rig_from(lines: &[Line]) -> rig::Rig
    requires begins { Begins lines.now }
    requires few { (how_many (is_kind kind_b) (held lines.now) ≤ 64) × (length lines.now ≤ 10240) }
    ensures { result ≡ rig_from (held lines.now) }
{
    let mut controller = [0u8; TASK_PLACES];
    let mut priority = [0u8; TASK_PLACES];
    let mut privileged = [0u8; TASK_PLACES];
    let mut activation = [0u8; TASK_PLACES];
    fill_tasks(
        lines,
        &mut controller,
        &mut priority,
        &mut privileged,
        &mut activation,
    );
    let mut present = [0u8; CONDITIONS];
    let mut latched = [0u8; CONDITIONS];
    let mut desired = [0u8; CONDITIONS];
    rig_fill::fill_conditions(lines, &mut present, &mut latched, &mut desired);
    let mut line_task = [0u8; LINES];
    let mut line_pos = [0u8; LINES];
    let mut line_flag = [0u8; LINES];
    rig_fill::fill_lines(lines, &mut line_task, &mut line_pos, &mut line_flag);
    let row = rows_from(lines);
    let first = lines[0];
    rig::Rig {
        tasks: first.numbers[1],
        flags: first.numbers[2],
        master: first.numbers[3],
        lines: rig_held::how_many(lines, Kind::Line) as u16,
        rows: rig_held::how_many(lines, Kind::Row) as u8,
        controller,
        priority,
        privileged,
        activation,
        present,
        latched,
        desired,
        line_task,
        line_pos,
        line_flag,
        row,
    }
}
