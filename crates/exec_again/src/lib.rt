// What a call comes to that ends a task.
#![tactic(auto)]

ghost use Rattle.exec_state.specs.Work.{Work};
ghost use Rattle.exec_outcome.specs.Outcome.{accepted_with};
ghost use Rattle.exec_outcome.specs.Laws.Settling.{empty_cycle, Settled};
ghost use Rattle.exec_again.specs.Laws.Again.{SettlesAgain};

use exec_outcome::Report;
use exec_queue::Queue;
use exec_state::State;
use rig::{Cycle, Rig};
use rig_tables::CYCLE_FLAGS;

// "After finish and terminate": once what is queued is served, task t is tested again, and what that queues is served too.
pub fn settle_again(rig: &Rig, st: &mut State, queue: Queue, t: usize) -> Report
    requires { SettlesAgain rig.now (record { st = st.old; queue = queue }) t }
    ensures { Settled rig.now empty_cycle (record { st = st.old; queue = queue }) t (accepted_with st.new result) }
{
    let cycle = Cycle {
        flags: [0; CYCLE_FLAGS],
    };
    let d = exec_serving::serve(rig, &cycle, st, queue);
    let queued = exec_testing::tested(rig, st, t);
    let o = exec_outcome::settle(rig, st, queued);
    Report {
        served: d.served + o.served,
        woken: d.woken + o.woken,
        activated: d.activated + o.activated,
        words: 0,
        value: 0,
    }
}
