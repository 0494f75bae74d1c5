// The running task begins to wait.
#![tactic(auto)]

ghost use Rattle.exec_state.specs.Post.{FlagOk};
ghost use Rattle.exec_waiting.specs.Post.{MayWait, WaitsOn, WaitsUntil};

use exec_state::{FLAG_CHAINS, State, TIME_CHAIN, WAITING};

// The running task waits for a service of flag f with value v.
pub fn wait_on(st: &mut State, f: usize, v: usize)
    requires may_wait { MayWait st.old }
    requires flag_ok { FlagOk f v }
    ensures { WaitsOn st.old f v st.new }
{
    let t = st.running as usize;
    chains::append(&mut st.links, FLAG_CHAINS + 2 * f + v, t);
    st.state[t] = WAITING;
    st.running = 0;
}

// The running task waits until a count.
pub fn wait_until(st: &mut State, count: u32)
    requires { MayWait st.old }
    ensures { WaitsUntil st.old count st.new }
{
    let t = st.running as usize;
    st.wake[t] = count;
    chains::place(&mut st.links, &st.wake, TIME_CHAIN, t);
    st.state[t] = WAITING;
    st.running = 0;
}
