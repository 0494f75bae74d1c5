// What is said of a rig file: how much it holds, or why it is refused.
#![tactic(auto)]

mod counts;

ghost use Rattle.std.specs.Prelude.{◌+◌, ◌≤◌, length};
ghost use Rattle.put_text.specs.Wrote.{Wrote};
ghost use Rattle.rig_culprits.specs.Culprits.{culprit_told};
ghost use Rattle.rig_saying.specs.Saying.{line_text, head_text, culprit_text, why_text, refused_text, right_text, rig_part, Said, CountsOf};

use put_text::put_text;
use rig_culprits::{Culprit, Rule};
use rig_phrases::{put_count, put_number};

// More than the longest saying has.
pub const ROOM: usize = 1024;

// Where the refusal has a line.
fn line_part(out: &mut [u8], at: usize, line: usize) -> usize
    requires { at + 256 ≤ length out.old }
    ensures { Wrote out.old at (line_text line) out.new result }
{
    if line == 0 {
        return put_text(out, at, b": ");
    }
    let a = put_text(&mut *out, at, b" at line ");
    let b = put_number(&mut *out, a, line as u64);
    put_text(out, b, b": ")
}

// The refusal's number, and its line where it has one.
fn head(out: &mut [u8], number: u8, line: usize) -> usize
    requires { 1024 ≤ length out.old }
    ensures { Wrote out.old 0 (head_text number line) out.new result }
{
    let a = put_text(&mut *out, 0, b"refused by ");
    let b = put_number(&mut *out, a, number as u64);
    line_part(out, b, line)
}

// The line or the task that breaks a rule.
fn culprit(out: &mut [u8], at: usize, who: Option<Culprit>) -> usize
    requires { at + 256 ≤ length out.old }
    ensures { Wrote out.old at (culprit_text (culprit_told who)) out.new result }
{
    let Some(who) = who else {
        return at;
    };
    match who {
        Culprit::Line(n) => {
            let a = put_text(&mut *out, at, b": line ");
            put_number(out, a, n as u64)
        }
        Culprit::Task(n) => {
            let a = put_text(&mut *out, at, b": task ");
            put_number(out, a, n as u64)
        }
    }
}

fn why(out: &mut [u8], at: usize, file: &[u8], number: u8, line: usize, rule: u16) -> usize
    requires { at + 384 ≤ length out.old }
    ensures { Wrote out.old at (why_text file.now number line rule) out.new result }
{
    if number == 4 {
        let sentence = rig_rule_sentences::of_rule(Rule::of_number(rule));
        let a = put_text(&mut *out, at, sentence);
        return culprit(out, a, rig_culprits::culprit_of(file, rule));
    }
    if number == 1 {
        let sentence = rig_line_sentences::of_shape(rig_shapes::why(file, line));
        return put_text(out, at, sentence);
    }
    put_text(out, at, rig_line_sentences::of_line(number, line))
}

fn refused(out: &mut [u8], file: &[u8], number: u8, line: usize, rule: u16) -> usize
    requires { 1024 ≤ length out.old }
    ensures { Wrote out.old 0 (refused_text file.now number line rule) out.new result }
{
    let a = head(&mut *out, number, line);
    let b = why(&mut *out, a, file, number, line, rule);
    put_text(out, b, b".\n")
}

fn right(out: &mut [u8], tasks: u64, flags: u64, conditions: u64, rows: u64) -> usize
    requires { 1024 ≤ length out.old }
    ensures { Wrote out.old 0 (right_text tasks flags conditions rows) out.new result }
{
    let a = put_count(&mut *out, 0, counts::TASKS, tasks);
    let b = put_count(&mut *out, a, counts::FLAGS, flags);
    let c = put_count(&mut *out, b, counts::CONDITIONS, conditions);
    put_count(out, c, counts::BUS_ROWS, rows)
}

// Says it: one line that begins with `right` or with `refused`, and its length. With less than ROOM bytes nothing is written.
pub fn say(file: &[u8], out: &mut [u8]) -> usize
    ensures { Said file.now out.old out.new result }
{
    if out.len() < ROOM {
        return 0;
    }
    let a = rig_read::read(file);
    if a.no == 0 {
        let conditions = counts::conditions_of(&a.rig);
        return right(
            out,
            a.rig.tasks as u64,
            a.rig.flags as u64,
            conditions,
            a.rig.rows as u64,
        );
    }
    refused(out, file, a.no, a.line, a.rule)
}

// The same of an input that goes on behind a rig: "a rig, the line RUN, then script lines".
pub fn say_input(input: &[u8], out: &mut [u8]) -> usize
    ensures said { Said (rig_part input.now) out.old out.new result }
    ensures counts_of { CountsOf result out.new }
{
    let end = bench_read::rig_end(input);
    say(&input[0..end], out)
}
