// The tick, flags and compool blocks on a record that is lent to be changed where it stands, in the form of crate exec_lent.
#![tactic(auto)]

ghost use Rattle.std.specs.Prelude.{[]};
ghost use Rattle.rules.specs.Calls as Call;
ghost use Rattle.exec.specs.Call.{bit, Meets};
ghost use Rattle.exec_lent.specs.Rebuilt.{step_of};

use exec::{Answer, Exec};

pub fn tick(e: &mut Exec, out: &mut [u16]) -> Answer
    ensures { Meets e.old (Call.tick out.old) (step_of e.new result) out.new }
{
    let s = (*e).tick(out);
    *e = s.exec;
    s.answer
}

pub fn signal(e: &mut Exec, flag: u32, value: bool) -> Answer
    ensures { Meets e.old (Call.signal flag (bit value)) (step_of e.new result) [] }
{
    let s = (*e).signal(flag, value);
    *e = s.exec;
    s.answer
}

pub fn read_flag(e: &mut Exec, flag: u32) -> Answer
    ensures { Meets e.old (Call.read_flag flag) (step_of e.new result) [] }
{
    let s = (*e).read_flag(flag);
    *e = s.exec;
    s.answer
}

pub fn read_block(e: &mut Exec, k: u32, area: &[u16], buffer: &mut [u16]) -> Answer
    ensures { Meets e.old (Call.read_block k area.now buffer.old) (step_of e.new result) buffer.new }
{
    let s = (*e).read_block(k, area, buffer);
    *e = s.exec;
    s.answer
}

pub fn write_block(e: &mut Exec, k: u32, area: &mut [u16], words: &[u16]) -> Answer
    ensures { Meets e.old (Call.write_block k area.old words.now) (step_of e.new result) area.new }
{
    let s = (*e).write_block(k, area, words);
    *e = s.exec;
    s.answer
}
