// Whether a whole rig obeys the rules, and if not, which rule it breaks first.
#![tactic(auto)]

ghost use Rattle.std.specs.Prelude.{ℕ, ◌≤◌, ◌<◌, ◌≡◌, true, ◌↔◌};
ghost use Rattle.laws.specs.All.{all_of};
ghost use Rattle.laws.specs.First.{first_false};
ghost use Rattle.rig_tables.specs.Tests.{at, marked};
ghost use Rattle.rig_tables.specs.Lines.{LinesFit, Together};
ghost use Rattle.rig_conditions.specs.Tables.{Ends};
ghost use Rattle.rig.specs.Forms.{rig_with};
ghost use Rattle.rig.specs.Rules.{Right};
ghost use Rattle.rig_cycles.specs.Tests.{cycles_rise_b};
ghost use Rattle.rig_whole.specs.Numbers.{rule_number, rule_report};
ghost use Rattle.rig_whole.specs.Tests.{shaped_tests, count_tests, size_tests, order_tests, number_tests, task_tests, line_tests, rest_tests, first_broken};
ghost use Rattle.rig_whole.specs.Which.{BrokenFirst};

use rig::{Cycle, Rig, Row};
use rig_tables::{CONDITIONS, CYCLES, FLAG_PLACES, LINES, ROWS, TASK_PLACES};

// "Tasks 1 to 64, flags 1 to 128", "addresses 0 to 31", "at most 1,024 A and 64 B lines", "priority 0 to 255"
const MOST_TASKS: u8 = 64;

const MOST_FLAGS: u8 = 128;

const LAST_ADDRESS: u8 = 31;

const MOST_LINES: u16 = 1024;

const MOST_ROWS: u8 = 64;

const HIGHEST_PRIORITY: u8 = 255;

// The rules of a rig, in the order in which they are tried: 1 to 25. What a rule asks is said of its number, in specs/Which.
#[derive(Clone, Copy, Debug, PartialEq, Eq)]
pub enum Rule {
    TaskCount,
    FlagCount,
    Master,
    LineCount,
    RowCount,
    Priority,
    Privilege,
    Condition,
    RowSize,
    LineOrder,
    CycleOrder,
    ActivationNumber,
    ConditionNumber,
    LineNumber,
    CycleNumber,
    Controller,
    Shared,
    MinorActivation,
    NoCondition,
    NoLine,
    MinorCondition,
    SameAddress,
    TaskBeyond,
    LineBeyond,
    RowBeyond,
}

impl Rule {
    // The number by which it is told.
    pub fn number(self) -> u8
        ensures { result ≡ rule_number self }
    {
        match self {
            Rule::TaskCount => 1,
            Rule::FlagCount => 2,
            Rule::Master => 3,
            Rule::LineCount => 4,
            Rule::RowCount => 5,
            Rule::Priority => 6,
            Rule::Privilege => 7,
            Rule::Condition => 8,
            Rule::RowSize => 9,
            Rule::LineOrder => 10,
            Rule::CycleOrder => 11,
            Rule::ActivationNumber => 12,
            Rule::ConditionNumber => 13,
            Rule::LineNumber => 14,
            Rule::CycleNumber => 15,
            Rule::Controller => 16,
            Rule::Shared => 17,
            Rule::MinorActivation => 18,
            Rule::NoCondition => 19,
            Rule::NoLine => 20,
            Rule::MinorCondition => 21,
            Rule::SameAddress => 22,
            Rule::TaskBeyond => 23,
            Rule::LineBeyond => 24,
            Rule::RowBeyond => 25,
        }
    }
}

// Rules 1 to 5: the counts of the RIG line, of A lines and of rows. And the tables of what is lent have their lengths.
#[tactic(auto, using(crate::specs::Laws::Whole::lengths_hold), unfolding(laws::specs::First::first_false))]
fn counts(rig: &Rig) -> Result<(), Rule>
    ensures shaped { all_of (shaped_tests rig.now) ≡ true }
    ensures first { rule_report result ≡ first_false 1 (count_tests rig.now.tasks rig.now.flags rig.now.master rig.now.lines rig.now.rows) }
{
    if !rig_tables::in_range(1, rig.tasks, MOST_TASKS) {
        return Err(Rule::TaskCount);
    }
    if !rig_tables::in_range(1, rig.flags, MOST_FLAGS) {
        return Err(Rule::FlagCount);
    }
    if LAST_ADDRESS < rig.master {
        return Err(Rule::Master);
    }
    if MOST_LINES < rig.lines {
        return Err(Rule::LineCount);
    }
    if MOST_ROWS < rig.rows {
        return Err(Rule::RowCount);
    }
    Ok(())
}

// Rules 6 to 9: priorities, privileges, conditions, rows.
#[tactic(auto, unfolding(laws::specs::First::first_false))]
fn sizes(rig: &Rig) -> Result<(), Rule>
    requires { rig.now.rows ≤ 64 }
    ensures { rule_report result
        ≡ first_false 6 (size_tests rig.now.priority rig.now.privileged rig.now.present rig.now.latched rig.now.desired rig.now.rows rig.now.row) }
{
    if !rig_tables::small(&rig.priority, HIGHEST_PRIORITY) {
        return Err(Rule::Priority);
    }
    if !rig_tables::small(&rig.privileged, 1) {
        return Err(Rule::Privilege);
    }
    if !rig_conditions::conditions(rig) {
        return Err(Rule::Condition);
    }
    if !rig_rows::rows_ok(rig) {
        return Err(Rule::RowSize);
    }
    Ok(())
}

// Rules 10 and 11: A lines and the flags of each cycle rise.
#[tactic(auto, unfolding(laws::specs::First::first_false))]
fn orders<'a>(rig: &'a Rig, cycles: &'a [Cycle; CYCLES]) -> Result<(), Rule>
    requires { rig.now.lines ≤ 1024 }
    ensures { rule_report result
        ≡ first_false 10 (order_tests rig.now.lines rig.now.line_task rig.now.line_pos rig.now.line_flag cycles.now) }
{
    if !rig_a_lines::lines_rise(rig) {
        return Err(Rule::LineOrder);
    }
    if !rig_cycles::cycles_rise(cycles) {
        return Err(Rule::CycleOrder);
    }
    Ok(())
}

// Rules 12 to 15: no task or flag number is above the RIG line's.
#[tactic(auto, unfolding(laws::specs::First::first_false))]
fn numbers<'a>(rig: &'a Rig, cycles: &'a [Cycle; CYCLES]) -> Result<(), Rule>
    requires { (rig.now.lines ≤ 1024) × (cycles_rise_b cycles.now ≡ true) }
    ensures { rule_report result
        ≡ first_false 12 (number_tests rig.now.tasks rig.now.flags rig.now.lines rig.now.activation rig.now.present rig.now.line_task rig.now.line_pos rig.now.line_flag cycles.now) }
{
    if !rig_tables::small(&rig.activation, rig.flags) {
        return Err(Rule::ActivationNumber);
    }
    if !rig_zeros::condition_tasks(rig) {
        return Err(Rule::ConditionNumber);
    }
    if !rig_a_lines::lines(rig) {
        return Err(Rule::LineNumber);
    }
    if !rig_cycles::cycles_small(rig.flags, cycles) {
        return Err(Rule::CycleNumber);
    }
    Ok(())
}

// Rules 16 to 18: controllers, and activation flags against each other and against the marked minor-cycle flags.
fn task_rules<'a>(rig: &'a Rig, flags: &'a [u8; FLAG_PLACES]) -> Result<(), Rule>
    requires { (1 ≤ rig.now.tasks)
        × ((rig.now.tasks ≤ 64) × ((t : ℕ) → t < 65 → at rig.now.activation t ≤ 128)) }
    ensures { rule_report result
        ≡ first_false 16 (task_tests rig.now.tasks rig.now.controller rig.now.activation (marked flags.now)) }
{
    if !rig_controllers::controllers(rig) {
        return Err(Rule::Controller);
    }
    let table = rig_activation::flag_owners(&rig.activation);
    if !rig_activation::served(&rig.activation, &table) {
        return Err(Rule::Shared);
    }
    if !rig_activation::unmarked(&rig.activation, flags) {
        return Err(Rule::MinorActivation);
    }
    Ok(())
}

// Rules 19 to 21: A lines and conditions name each other, and conditions with a marked minor-cycle flag. The first pass ends
// behind the last task's places.
fn line_rules<'a>(rig: &'a Rig, flags: &'a [u8; FLAG_PLACES]) -> Result<(), Rule>
    requires { LinesFit rig.now.lines rig.now.line_task rig.now.line_pos rig.now.line_flag
        × (Together rig.now.lines rig.now.line_task rig.now.line_pos × Ends rig.now.tasks rig.now.lines rig.now.present rig.now.line_task rig.now.line_pos) }
    ensures { rule_report result
        ≡ first_false 19 (line_tests rig.now.lines rig.now.present rig.now.latched rig.now.desired rig.now.line_task rig.now.line_pos rig.now.line_flag (marked flags.now)) }
{
    let table = rig_conditions::place_marks(rig);
    // one pass for both rules; where it fails, which
    if !rig_conditions::matched(rig, &table) {
        if !rig_conditions::names_present(rig) {
            return Err(Rule::NoCondition);
        }
        return Err(Rule::NoLine);
    }
    if !rig_minor::minor_conditions(rig, flags) {
        return Err(Rule::MinorCondition);
    }
    Ok(())
}

// Rules 22 to 25: sender and receiver differ; entries beyond the counts are 0.
#[tactic(auto, unfolding(laws::specs::First::first_false))]
fn rest_rules(rig: &Rig) -> Result<(), Rule>
    requires { (rig.now.lines ≤ 1024) × (rig.now.rows ≤ 64) }
    ensures { rule_report result
        ≡ first_false 22 (rest_tests rig.now.tasks rig.now.lines rig.now.rows rig.now.controller rig.now.priority rig.now.privileged rig.now.activation rig.now.line_task rig.now.line_pos rig.now.line_flag rig.now.row) }
{
    if !rig_rows::differ(rig) {
        return Err(Rule::SameAddress);
    }
    if !rig_zeros::task_zeros(rig) {
        return Err(Rule::TaskBeyond);
    }
    if !rig_zeros::line_zeros(rig) {
        return Err(Rule::LineBeyond);
    }
    if !rig_rows::row_zeros(rig) {
        return Err(Rule::RowBeyond);
    }
    Ok(())
}

// The first rule that the rig and its cycles break.
pub fn first_broken<'a>(rig: &'a Rig, cycles: &'a [Cycle; CYCLES]) -> Result<(), Rule>
    ensures { rule_report result ≡ first_broken rig.now cycles.now }
{
    counts(rig)?;
    sizes(rig)?;
    orders(rig, cycles)?;
    numbers(rig, cycles)?;
    let minor = rig_cycles::minor_marks(cycles);
    task_rules(rig, &minor)?;
    line_rules(rig, &minor)?;
    rest_rules(rig)
}

// The number of the first rule that the rig and its cycles break, 0 for none: what it is told by to those who ask for a number.
pub fn broken(rig: Rig, cycles: [Cycle; CYCLES]) -> u8
    ensures { BrokenFirst rig cycles result }
{
    match first_broken(&rig, &cycles) {
        Ok(()) => 0,
        Err(rule) => rule.number(),
    }
}

// Whether the rig and its cycles obey every rule.
pub fn right(rig: Rig, cycles: [Cycle; CYCLES]) -> bool
    ensures { (result ≡ true) ↔ Right rig cycles }
{
    first_broken(&rig, &cycles).is_ok()
}

// The number that `broken` gives, of a rig whose tables are lent one by one. Who holds a rig lends it whole, to `first_broken`.
pub fn broken_in<'a>(
    tasks: u8,
    flags: u8,
    master: u8,
    lines: u16,
    rows: u8,
    controller: &'a [u8; TASK_PLACES],
    priority: &'a [u8; TASK_PLACES],
    privileged: &'a [u8; TASK_PLACES],
    activation: &'a [u8; TASK_PLACES],
    present: &'a [u8; CONDITIONS],
    latched: &'a [u8; CONDITIONS],
    desired: &'a [u8; CONDITIONS],
    line_task: &'a [u8; LINES],
    line_pos: &'a [u8; LINES],
    line_flag: &'a [u8; LINES],
    row: [Row; ROWS],
    cycles: [Cycle; CYCLES],
) -> u8
    requires { all_of (shaped_tests (rig_with tasks flags master lines rows controller.now priority.now privileged.now activation.now present.now latched.now desired.now line_task.now line_pos.now line_flag.now row)) ≡ true }
    ensures { result
        ≡ first_broken (rig_with tasks flags master lines rows controller.now priority.now privileged.now activation.now present.now latched.now desired.now line_task.now line_pos.now line_flag.now row) cycles }
{
    let rig = Rig {
        tasks,
        flags,
        master,
        lines,
        rows,
        controller: *controller,
        priority: *priority,
        privileged: *privileged,
        activation: *activation,
        present: *present,
        latched: *latched,
        desired: *desired,
        line_task: *line_task,
        line_pos: *line_pos,
        line_flag: *line_flag,
        row,
    };
    broken(rig, cycles)
}
