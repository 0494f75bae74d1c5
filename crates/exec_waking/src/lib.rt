// Who waits becomes dispatchable: those in a flag's chain when it is served, and those due at the tick's count.
#![tactic(auto)]

ghost use Rattle.std.specs.Prelude.{◌≡◌, ◌<◌, ◌%◌, get_or};
ghost use Rattle.chains.specs.Held.{HoldsChains};
ghost use Rattle.rig.specs.Rules.{no_cycle};
ghost use Rattle.exec_waking.specs.Post.{Timed, TickOk, Rouses, WokenDue, Ticked};

use chains::Links;
use exec_queue::Queue;
use exec_state::{DISPATCHABLE, State, TIME_CHAIN};
use rig::Cycle;
use rig_tables::{CYCLES, TASK_PLACES};

// All who wait in the chain of anchor s become dispatchable: how many they are.
pub fn wake(links: &mut Links, state: &mut [u8; TASK_PLACES], s: usize) -> u32
    requires holds_chains { HoldsChains links.old }
    requires lt_s { (64 < s) × (s < 322) }
    ensures { Rouses links.old state.old s (record { links = links.new; woken = result }) state.new }
{
    let mut woken: u32 = 0;
    let mut v = links.next[s] as usize;
    while v != s {
        chains::unlink(links, v);
        state[v] = DISPATCHABLE;
        woken += 1;
        v = links.next[s] as usize;
    }
    woken
}

// The tasks due at the count become dispatchable: they leave the time chain from its front.
pub fn wake_due(st: &mut State)
    requires holds_chains { HoldsChains st.old.links }
    requires timed { Timed st.old }
    ensures { WokenDue st.old st.new }
{
    let count = st.count;
    let mut v = st.links.next[TIME_CHAIN] as usize;
    while v != TIME_CHAIN {
        if count < st.wake[v] {
            break;
        }
        chains::unlink(&mut st.links, v);
        st.state[v] = DISPATCHABLE;
        v = st.links.next[TIME_CHAIN] as usize;
    }
}

// The cycle of the count: "64 minor cycles a major frame".
pub fn cycle_at(cycles: &[Cycle; CYCLES], count: u32) -> Cycle
    ensures { result ≡ get_or cycles.now (count % 64) no_cycle }
{
    cycles[count as usize % CYCLES]
}

// The count rises by one, the tasks due at it become dispatchable, and the cycle's list is queued.
pub fn ticked(st: &mut State, cycles: &[Cycle; CYCLES]) -> Queue
    requires holds_chains { HoldsChains st.old.links }
    requires tick_ok { TickOk st.old }
    ensures { Ticked st.old cycles.now (record { st = st.new; queue = result }) }
{
    st.count += 1;
    let queue = Queue::of_cycle(&cycle_at(cycles, st.count));
    wake_due(st);
    queue
}
