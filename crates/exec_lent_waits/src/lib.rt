// The waits of the running task, and the questions (when the next wait for a count ends, how many of a task's starts came too soon, why a task
// won't start), on a record that is lent to be changed where it stands, in the form of crate exec_lent.
#![tactic(auto)]

ghost use Rattle.std.specs.Prelude.{[]};
ghost use Rattle.rules.specs.Calls as Call;
ghost use Rattle.exec.specs.Call.{bit, Meets};
ghost use Rattle.exec_lent.specs.Rebuilt.{step_of};

use exec::{Answer, Exec};

pub fn wait_until(e: &mut Exec, count: u32) -> Answer
    ensures { Meets e.old (Call.wait_until count) (step_of e.new result) [] }
{
    let s = (*e).wait_until(count);
    *e = s.exec;
    s.answer
}

pub fn wait_for(e: &mut Exec, cycles: u32) -> Answer
    ensures { Meets e.old (Call.wait_for cycles) (step_of e.new result) [] }
{
    let s = (*e).wait_for(cycles);
    *e = s.exec;
    s.answer
}

pub fn latched(e: &mut Exec, flag: u32, value: bool) -> Answer
    ensures { Meets e.old (Call.latched flag (bit value)) (step_of e.new result) [] }
{
    let s = (*e).latched(flag, value);
    *e = s.exec;
    s.answer
}

pub fn unlatched(e: &mut Exec, flag: u32, value: bool) -> Answer
    ensures { Meets e.old (Call.unlatched flag (bit value)) (step_of e.new result) [] }
{
    let s = (*e).unlatched(flag, value);
    *e = s.exec;
    s.answer
}

// "When does the bench next wake someone?"
pub fn next_waking(e: &mut Exec) -> Answer
    ensures { Meets e.old Call.next_waking (step_of e.new result) [] }
{
    let s = (*e).next_waking();
    *e = s.exec;
    s.answer
}

// How many of the task's starts came too soon.
pub fn overruns(e: &mut Exec, task: u32) -> Answer
    ensures { Meets e.old (Call.read_overruns task) (step_of e.new result) [] }
{
    let s = (*e).overruns(task);
    *e = s.exec;
    s.answer
}

// The lowest condition that blocks the task's start within so many links.
pub fn why_not(e: &mut Exec, task: u32, links: u32) -> Answer
    ensures { Meets e.old (Call.why_not task links) (step_of e.new result) [] }
{
    let s = (*e).why_not(task, links);
    *e = s.exec;
    s.answer
}
