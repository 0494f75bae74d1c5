// What is queued is served to its end.
#![tactic(auto)]

ghost use Rattle.exec_offers.specs.Set.{tables_of};
ghost use Rattle.exec_serving.specs.Set.{with_places};
ghost use Rattle.exec_serving.specs.Post.{Begins, CountsSoon, Emptied};
ghost use Rattle.exec_serving.specs.Done.{done_with};

use exec_queue::Queue;
use exec_state::{FLAG_CHAINS, State};
use rig::{Cycle, Rig};
use rig_tables::TASK_PLACES;

// How many flags were served, how many waiting tasks that made dispatchable, and how many inactive ones it activated.
#[derive(Clone, Copy, Debug, PartialEq, Eq)]
pub struct Served {
    pub served: u32,
    pub woken: u32,
    pub activated: u32,
}

// Those whose start comes too soon have one overrun more: of the flags that are served, those of the cycle are minor-cycle flags.
fn count_soon(
    cycle: &Cycle,
    f: u8,
    named: &[u8; TASK_PLACES],
    state: &[u8; TASK_PLACES],
    overruns: &mut [u16; TASK_PLACES],
)
    ensures { CountsSoon cycle.now f named.now state.now overruns.old overruns.new }
{
    if exec_queue::in_cycle(cycle, f) {
        exec_overruns::count(named, state, overruns);
    }
}

// The last queued is taken off and served, until the queue is empty.
pub fn serve(rig: &Rig, cycle: &Cycle, st: &mut State, mut queue: Queue) -> Served
    requires { Begins rig.now.lines rig.now.line_task rig.now.line_pos rig.now.activation st.old queue }
    ensures { (g : Rig) → Emptied (tables_of rig.now (with_places rig.now.line_pos g)) cycle.now st.old queue (done_with st.new result) }
{
    let mut served: u32 = 0;
    let mut woken: u32 = 0;
    let mut activated: u32 = 0;
    while let Some((f, v)) = queue.pop() {
        st.value[f as usize] = v;
        let mut who = [0u8; TASK_PLACES];
        exec_conditions::drive(rig, f, v, &mut st.cond, &mut who);
        count_soon(cycle, f, &who, &st.state, &mut st.overruns);
        let c = FLAG_CHAINS + 2 * (f as usize) + (v as usize);
        woken += exec_waking::wake(&mut st.links, &mut st.state, c);
        activated += exec_offers::offers(rig, f, &mut st.cond, &mut st.state, &mut queue);
        served += 1;
    }
    Served {
        served,
        woken,
        activated,
    }
}
