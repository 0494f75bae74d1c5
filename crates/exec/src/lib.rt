// The executive: the record, and every call on it by value. What a call does to the record's parts stands in crates of its
// own (exec_tasks, exec_waits, exec_flags, exec_bus, exec_questions, exec_why); here it becomes the next record and the answer.
#![tactic(auto)]

use chains::NODES;
use rig_tables::{CONDITIONS, CYCLE_FLAGS, CYCLES, FLAG_PLACES, TASK_PLACES};

mod answers;
mod calls;

ghost use Rattle.std.specs.Prelude.{◌≡◌};
ghost use Rattle.exec.specs.Starting.{no_exec, Starts};

pub use answers::answer_of;
use chains::Links;
pub use exec_outcome::Report;
use exec_state::State;
use rig::{Cycle, Rig};

// The rig and its cycles stay as they are from the start on; calls change the state. Numbers only: a record may stand in
// memory of any bytes, and each is answered.
#[repr(C)]
#[derive(Clone, Copy)]
pub struct Exec {
    pub rig: Rig,
    pub cycles: [Cycle; CYCLES],
    pub st: State,
}

#[derive(Clone, Copy)]
pub enum Answer {
    Accepted(Report),
    Refused(u8),
}

#[derive(Clone, Copy)]
pub struct Step {
    pub exec: Exec,
    pub answer: Answer,
}

// A record of all zeros.
pub fn none() -> Exec
    ensures { result ≡ no_exec }
{
    Exec {
        rig: rig::none(),
        cycles: rig::no_cycles(),
        st: State {
            count: 0,
            value: [0; FLAG_PLACES],
            cond: [0; CONDITIONS],
            state: [0; TASK_PLACES],
            wake: [0; TASK_PLACES],
            overruns: [0; TASK_PLACES],
            links: Links {
                next: [0; NODES],
                prev: [0; NODES],
                on: [0; TASK_PLACES],
            },
            running: 0,
        },
    }
}

// "Start: count 0, flags and conditions off, all tasks uninvoked; then task 1 is scheduled."
// It stays a call of its own: inlined, a start would need more stack than the header states.
#[inline(never)]
pub fn start(rig: Rig, cycles: [[u8; CYCLE_FLAGS]; CYCLES]) -> Step
    ensures { Starts rig cycles result }
{
    let mut exec = none();
    exec.rig = rig;
    exec.cycles = rig::cycles_of(cycles);
    match exec_tasks::start(&exec.rig, &exec.cycles, &mut exec.st) {
        Ok(report) => Step {
            exec,
            answer: Answer::Accepted(report),
        },
        Err(refusal) => Step {
            exec: none(),
            answer: Answer::Refused(refusal.number()),
        },
    }
}
