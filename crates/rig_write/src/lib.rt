// The rig file's writer: lines of a rig, one kind after the other.
#![tactic(auto)]

ghost use Rattle.std.specs.Prelude.{◌≡◌, ◌+◌, ◌≤◌, ◌<◌, length};
ghost use Rattle.put_text.specs.Wrote.{Wrote};
ghost use Rattle.rig_lines.specs.Text.{text};
ghost use Rattle.rig_write.specs.Kept.{kept, ended};
ghost use Rattle.rig_write.specs.Written.{written_report, written_of, buffer_of};
ghost use Rattle.rig_write.specs.File.{rig_line, is_task, task_line, is_condition, condition_line, is_line, flag_line, is_flag, cycle_line, is_row, row_line, file_of};

use refusals::Refusal;
use rig_lines::Kind;
use rig_tables::{CONDITIONS, CYCLE_FLAGS, CYCLES, LINES, ROWS, TASK_PLACES};

// The flags of all cycles, one behind the other.
const CYCLE_PLACES: usize = CYCLES * CYCLE_FLAGS;

fn put_rig(buf: &mut [u8], at: usize, g: &rig::Rig) -> usize
    requires { at + length (ended (rig_line g.now)) ≤ length buf.old }
    ensures { Wrote buf.old at (ended (rig_line g.now)) buf.new result }
{
    rig_print::put_line(
        &mut *buf,
        at,
        Kind::Rig,
        [1, g.tasks, g.flags, g.master, 0, 0, 0, 0, 0],
    )
}

// Five loops, one for each kind, and not one loop over a closure: a closure would need a contract that says of each number its test and its line,
// as long as the loop.
fn put_tasks(buf: &mut [u8], at: usize, g: &rig::Rig) -> usize
    requires { at + length (text (kept 65 (is_task g.now) (task_line g.now))) ≤ length buf.old }
    ensures { Wrote buf.old at (text (kept 65 (is_task g.now) (task_line g.now))) buf.new result }
{
    let tasks = g.tasks as usize;
    let mut p = at;
    for t in 0..TASK_PLACES {
        if t < 1 {
            continue;
        }
        if tasks < t {
            continue;
        }
        let v = [
            t as u8,
            g.controller[t],
            g.priority[t],
            g.privileged[t],
            g.activation[t],
            0,
            0,
            0,
            0,
        ];
        p = rig_print::put_line(&mut *buf, p, Kind::Task, v);
    }
    p
}

fn put_conditions(buf: &mut [u8], at: usize, g: &rig::Rig) -> usize
    requires { at + length (text (kept 1040 (is_condition g.now) (condition_line g.now))) ≤ length buf.old }
    ensures { Wrote buf.old at (text (kept 1040 (is_condition g.now) (condition_line g.now))) buf.new result }
{
    let mut p = at;
    for c in 0..CONDITIONS {
        if g.present[c] != 1 {
            continue;
        }
        let v = [
            (c / 16) as u8,
            (c % 16) as u8,
            g.latched[c],
            g.desired[c],
            0,
            0,
            0,
            0,
            0,
        ];
        p = rig_print::put_line(&mut *buf, p, Kind::Condition, v);
    }
    p
}

fn put_lines(buf: &mut [u8], at: usize, g: &rig::Rig) -> usize
    requires { at + length (text (kept 1024 (is_line g.now) (flag_line g.now))) ≤ length buf.old }
    ensures { Wrote buf.old at (text (kept 1024 (is_line g.now) (flag_line g.now))) buf.new result }
{
    let n = g.lines as usize;
    let mut p = at;
    for a in 0..LINES {
        if n <= a {
            continue;
        }
        let v = [
            g.line_task[a],
            g.line_pos[a],
            g.line_flag[a],
            0,
            0,
            0,
            0,
            0,
            0,
        ];
        p = rig_print::put_line(&mut *buf, p, Kind::Line, v);
    }
    p
}

fn put_cycles(buf: &mut [u8], at: usize, table: &[[u8; CYCLE_FLAGS]; CYCLES]) -> usize
    requires { at + length (text (kept 960 (is_flag table.now) (cycle_line table.now))) ≤ length buf.old }
    ensures { Wrote buf.old at (text (kept 960 (is_flag table.now) (cycle_line table.now))) buf.new result }
{
    let mut p = at;
    for i in 0..CYCLE_PLACES {
        let c = i / 15;
        let flag = table[c][i % 15];
        if flag == 0 {
            continue;
        }
        p = rig_print::put_line(
            &mut *buf,
            p,
            Kind::Flag,
            [c as u8, flag, 0, 0, 0, 0, 0, 0, 0],
        );
    }
    p
}

fn put_rows(buf: &mut [u8], at: usize, g: &rig::Rig) -> usize
    requires { at + length (text (kept 64 (is_row g.now) (row_line g.now))) ≤ length buf.old }
    ensures { Wrote buf.old at (text (kept 64 (is_row g.now) (row_line g.now))) buf.new result }
{
    let n = g.rows as usize;
    let mut p = at;
    for k in 0..ROWS {
        if n <= k {
            continue;
        }
        let b = g.row[k];
        let v = [
            b.sender,
            b.sender_sub,
            b.receiver,
            b.receiver_sub,
            b.words,
            b.period,
            b.phase,
            0,
            0,
        ];
        p = rig_print::put_line(&mut *buf, p, Kind::Row, v);
    }
    p
}

// The whole file, from the buffer's start.
fn put_file(buf: &mut [u8], g: &rig::Rig, table: &[[u8; CYCLE_FLAGS]; CYCLES]) -> usize
    requires { length (file_of g.now table.now) ≤ length buf.old }
    ensures { Wrote buf.old 0 (file_of g.now table.now) buf.new result }
{
    let a = put_rig(&mut *buf, 0, g);
    let b = put_tasks(&mut *buf, a, g);
    let c = put_conditions(&mut *buf, b, g);
    let d = put_lines(&mut *buf, c, g);
    let e = put_cycles(&mut *buf, d, table);
    put_rows(&mut *buf, e, g)
}

// The most bytes that a file has.
const LONGEST: usize = 40960;

// What writing answers: the file's length, or the refusal number. An entry's own answer, by whose names its contract and its callers go.
#[derive(Clone, Copy)]
pub enum Written {
    Done(usize),
    Refused(u8),
}

// Writes the file of a rig into the lent buffer. It is put together in a buffer of its own, which the file of a right rig
// always fits, so that nothing is written where the lent one is too short.
pub fn write(buf: &mut [u8], g: rig::Rig, cycles: [rig::Cycle; CYCLES]) -> Written
    ensures { (written_report result ≡ written_of g cycles (length buf.old)) × (buf.new ≡ buffer_of g cycles buf.old) }
{
    if !rig_whole::right(g, cycles) {
        return Written::Refused(Refusal::RuleBroken.number());
    }
    let table = rig::table_of(cycles);
    let mut own = [0u8; LONGEST];
    let n = put_file(&mut own, &g, &table);
    if buf.len() < n {
        return Written::Refused(Refusal::WrongLength.number());
    }
    put_text::put_text(&mut *buf, 0, &own[..n]);
    Written::Done(n)
}
