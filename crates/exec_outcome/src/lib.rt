// What a call comes to: what it tells, and the state that it leaves; or its refusal.
#![tactic(auto)]

ghost use Rattle.std.specs.Prelude.{◌≡◌};
ghost use Rattle.exec_state.specs.Work.{Work};
ghost use Rattle.exec_outcome.specs.Outcome.{value_told, accepted_with};
ghost use Rattle.exec_outcome.specs.Laws.Settling.{Settles, empty_cycle, Settled};

use exec_queue::Queue;
use exec_state::State;
use rig::{Cycle, Rig};
use rig_tables::CYCLE_FLAGS;

// What an accepted call tells: the flags it served, how many waiting tasks that made dispatchable and how many it activated, the bus
// words it wrote, the value of the flag it read or a question's answer. A refused call tells nothing, and its state is as it was.
#[derive(Clone, Copy, Debug, PartialEq, Eq)]
pub struct Report {
    pub served: u32,
    pub woken: u32,
    pub activated: u32,
    pub words: u32,
    pub value: u32,
}

impl Report {
    // No flag was served: the value that was asked for alone.
    pub fn of_value(value: u32) -> Report
        ensures { result ≡ value_told value }
    {
        Report {
            served: 0,
            woken: 0,
            activated: 0,
            words: 0,
            value,
        }
    }
}

// What a call has queued is served, and then it is decided who runs. Of the flags that are served, those of the cycle are
// minor-cycle flags.
pub fn settle_in(rig: &Rig, cycle: &Cycle, st: &mut State, queue: Queue) -> Report
    requires { Settles rig.now (record { st = st.old; queue = queue }) }
    ensures { Settled rig.now cycle.now (record { st = st.old; queue = queue }) 0 (accepted_with st.new result) }
{
    let d = exec_serving::serve(rig, cycle, st, queue);
    st.dispatch(rig);
    Report {
        served: d.served,
        woken: d.woken,
        activated: d.activated,
        words: 0,
        value: 0,
    }
}

// A call other than the tick serves no minor-cycle flag.
pub fn settle(rig: &Rig, st: &mut State, queue: Queue) -> Report
    requires { Settles rig.now (record { st = st.old; queue = queue }) }
    ensures { Settled rig.now empty_cycle (record { st = st.old; queue = queue }) 0 (accepted_with st.new result) }
{
    let cycle = Cycle {
        flags: [0; CYCLE_FLAGS],
    };
    settle_in(rig, &cycle, st, queue)
}
