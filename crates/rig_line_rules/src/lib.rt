// The rules over the whole file that only the lines show, asked of lines that are held.
#![tactic(auto)]

ghost use Rattle.std.specs.Prelude.{◌≡◌};
ghost use Rattle.laws.specs.First.{first_false};
ghost use Rattle.rig_lines.specs.Whole.{line_tests};
ghost use Rattle.rig_held.specs.Held.{held, Begins};
ghost use Rattle.rig_line_rules.specs.Rules.{line_rule_number, line_rule_report};

use rig_held::Line;
use rig_lines::Kind;
use rig_tables::{LINES, ROWS};

// The rules of the lines, in the order in which they are tried.
#[derive(Clone, Copy, Debug, PartialEq, Eq)]
pub enum LineRule {
    NumberAbove,
    TooManyLines,
    TooManyRows,
    TaskWithoutLine,
    TooManyFlags,
}

impl LineRule {
    // The rule's number, from 1 on.
    pub fn number(self) -> u16
        ensures { result ≡ line_rule_number self }
    {
        match self {
            LineRule::NumberAbove => 1,
            LineRule::TooManyLines => 2,
            LineRule::TooManyRows => 3,
            LineRule::TaskWithoutLine => 4,
            LineRule::TooManyFlags => 5,
        }
    }
}

// The first whole-file rule that the lines break.
pub fn line_rule(lines: &[Line]) -> Result<(), LineRule>
    requires { Begins lines.now }
    ensures { line_rule_report result ≡ first_false 1 (line_tests (held lines.now)) }
{
    let first = lines[0];
    let tasks = first.numbers[1];
    if !rig_marks::none_above(lines, tasks, first.numbers[2]) {
        return Err(LineRule::NumberAbove);
    }
    if LINES < rig_held::how_many(lines, Kind::Line) {
        return Err(LineRule::TooManyLines);
    }
    if ROWS < rig_held::how_many(lines, Kind::Row) {
        return Err(LineRule::TooManyRows);
    }
    if !rig_marks::each_task(rig_marks::task_lines(lines), tasks) {
        return Err(LineRule::TaskWithoutLine);
    }
    if !rig_marks::few_flags(rig_marks::flag_counts(lines)) {
        return Err(LineRule::TooManyFlags);
    }
    Ok(())
}
