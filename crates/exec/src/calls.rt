// Every call, as a method by value: it takes the record and hands the next one back with the answer.
ghost use Rattle.std.specs.Prelude.{◌≡◌, true, ◌↔◌, []};
ghost use Rattle.rules.specs.Calls as Call;
ghost use Rattle.exec.specs.Sound.{SoundRecord};
ghost use Rattle.exec.specs.Call.{bit, Meets};

use crate::answers::answer_of;
use crate::{Exec, Step};

impl Exec {
    // Whether the record is sound.
    pub fn sound(self) -> bool
        ensures { (result ≡ true) ↔ SoundRecord self }
    {
        exec_sound::sound(&self.rig, &self.cycles, &self.st)
    }

    pub fn schedule(mut self, task: u32) -> Step
        ensures { Meets self (Call.schedule task) result [] }
    {
        let told = exec_tasks::schedule(&self.rig, &self.cycles, &mut self.st, task);
        Step {
            exec: self,
            answer: answer_of(told),
        }
    }

    pub fn cancel(mut self, task: u32) -> Step
        ensures { Meets self (Call.cancel task) result [] }
    {
        let told = exec_tasks::cancel(&self.rig, &self.cycles, &mut self.st, task);
        Step {
            exec: self,
            answer: answer_of(told),
        }
    }

    pub fn terminate(mut self, task: u32) -> Step
        ensures { Meets self (Call.terminate task) result [] }
    {
        let told = exec_tasks::terminate(&self.rig, &self.cycles, &mut self.st, task);
        Step {
            exec: self,
            answer: answer_of(told),
        }
    }

    pub fn finish(mut self) -> Step
        ensures { Meets self Call.finish result [] }
    {
        let told = exec_tasks::finish(&self.rig, &self.cycles, &mut self.st);
        Step {
            exec: self,
            answer: answer_of(told),
        }
    }

    pub fn tick(mut self, out: &mut [u16]) -> Step
        ensures { Meets self (Call.tick out.old) result out.new }
    {
        let told = exec_bus::tick(&self.rig, &self.cycles, &mut self.st, out);
        Step {
            exec: self,
            answer: answer_of(told),
        }
    }

    pub fn wait_until(mut self, count: u32) -> Step
        ensures { Meets self (Call.wait_until count) result [] }
    {
        let told = exec_waits::wait_until(&self.rig, &self.cycles, &mut self.st, count);
        Step {
            exec: self,
            answer: answer_of(told),
        }
    }

    pub fn wait_for(mut self, many: u32) -> Step
        ensures { Meets self (Call.wait_for many) result [] }
    {
        let told = exec_waits::wait_for(&self.rig, &self.cycles, &mut self.st, many);
        Step {
            exec: self,
            answer: answer_of(told),
        }
    }

    pub fn latched(mut self, flag: u32, value: bool) -> Step
        ensures { Meets self (Call.latched flag (bit value)) result [] }
    {
        let told = exec_waits::wait_on(&self.rig, &self.cycles, &mut self.st, true, flag, value);
        Step {
            exec: self,
            answer: answer_of(told),
        }
    }

    pub fn unlatched(mut self, flag: u32, value: bool) -> Step
        ensures { Meets self (Call.unlatched flag (bit value)) result [] }
    {
        let told = exec_waits::wait_on(&self.rig, &self.cycles, &mut self.st, false, flag, value);
        Step {
            exec: self,
            answer: answer_of(told),
        }
    }

    pub fn signal(mut self, flag: u32, value: bool) -> Step
        ensures { Meets self (Call.signal flag (bit value)) result [] }
    {
        let told = exec_flags::signal(&self.rig, &self.cycles, &mut self.st, flag, value);
        Step {
            exec: self,
            answer: answer_of(told),
        }
    }

    pub fn read_flag(self, flag: u32) -> Step
        ensures { Meets self (Call.read_flag flag) result [] }
    {
        let told = exec_flags::read_flag(&self.rig, &self.cycles, &self.st, flag);
        Step {
            exec: self,
            answer: answer_of(told),
        }
    }

    pub fn read_block(self, k: u32, area: &[u16], buffer: &mut [u16]) -> Step
        ensures { Meets self (Call.read_block k area.now buffer.old) result buffer.new }
    {
        let told = exec_bus::read_block(&self.rig, &self.cycles, &self.st, k, area, buffer);
        Step {
            exec: self,
            answer: answer_of(told),
        }
    }

    pub fn write_block(self, k: u32, area: &mut [u16], words: &[u16]) -> Step
        ensures { Meets self (Call.write_block k area.old words.now) result area.new }
    {
        let told = exec_bus::write_block(&self.rig, &self.cycles, &self.st, k, area, words);
        Step {
            exec: self,
            answer: answer_of(told),
        }
    }

    // "When does the bench next wake someone?" The value that is told is the lowest waking count, 0 if nobody waits for one.
    pub fn next_waking(self) -> Step
        ensures { Meets self Call.next_waking result [] }
    {
        let told = exec_questions::next_waking(&self.rig, &self.cycles, &self.st);
        Step {
            exec: self,
            answer: answer_of(told),
        }
    }

    // How many of the task's starts came too soon. The value that is told is its number of overruns.
    pub fn overruns(self, task: u32) -> Step
        ensures { Meets self (Call.read_overruns task) result [] }
    {
        let told = exec_questions::overruns(&self.rig, &self.cycles, &self.st, task);
        Step {
            exec: self,
            answer: answer_of(told),
        }
    }

    // "Why won't it start?", of an inactive task and within 0 to 3 links. The value that is told is the position of the lowest condition that
    // blocks; 16, which is no position, says that it can.
    pub fn why_not(self, task: u32, links: u32) -> Step
        ensures { Meets self (Call.why_not task links) result [] }
    {
        let told = exec_why::why_not(&self.rig, &self.cycles, &self.st, task, links);
        Step {
            exec: self,
            answer: answer_of(told),
        }
    }
}
