// A task is tested whether it is to be activated; a schedule ends with that test.
#![tactic(auto)]

ghost use Rattle.std.specs.Prelude.{◌≤◌};
ghost use Rattle.exec_state.specs.Post.{Tested, Scheduled};

use exec_queue::Queue;
use exec_state::{DISPATCHABLE, INACTIVE, ON, State};
use rig::Rig;

// Task t, if it is inactive with all its conditions as desired, is activated.
pub fn tested(rig: &Rig, st: &mut State, t: usize) -> Queue
    requires { t ≤ 64 }
    ensures { Tested st.old rig.now t (record { st = st.new; queue = result }) }
{
    let mut queue = Queue::empty();
    if st.state[t] == INACTIVE && exec_conditions::met(rig, t, &st.cond) {
        queue.push(rig.activation[t], ON);
        st.state[t] = DISPATCHABLE;
        exec_conditions::relax(rig, t, &mut st.cond);
    }
    queue
}

// Task t is inactive with its unlatched conditions undesired and with no overruns, and then tested.
pub fn scheduled(rig: &Rig, st: &mut State, t: usize) -> Queue
    requires { t ≤ 64 }
    ensures { Scheduled st.old rig.now t (record { st = st.new; queue = result }) }
{
    exec_conditions::relax(rig, t, &mut st.cond);
    st.state[t] = INACTIVE;
    st.overruns[t] = 0;
    tested(rig, st, t)
}
