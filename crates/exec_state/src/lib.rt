// The state of the executive, and what the calls do to it: each method with its rule as contract.
#![tactic(auto)]

ghost use Rattle.std.specs.Prelude.{◌<◌, ◌≤◌};
ghost use Rattle.chains.specs.Held.{HoldsChains};
ghost use Rattle.exec_state.specs.Post.{CancelOk, Dispatched, Finished, Terminated, Cancelled, Blank};

use chains::Links;
use exec_queue::Queue;
pub use exec_running::{DISPATCHABLE, INACTIVE, UNINVOKED, WAITING};
use rig::Rig;
use rig_tables::{CONDITIONS, FLAG_PLACES, TASK_PLACES};

// The values of a flag, numbers as in the record.
const OFF: u8 = 0;

pub const ON: u8 = 1;

// The anchor of the time chain; that of the chain for value v of flag f is FLAG_CHAINS + 2 * f + v.
pub const TIME_CHAIN: usize = 65;

pub const FLAG_CHAINS: usize = 64;

// Tables by number, place 0 unused; a condition at 16 * task + position. Numbers only: C lends memory of any bytes.
#[repr(C)]
#[derive(Clone, Copy, Debug, PartialEq, Eq)]
pub struct State {
    pub count: u32,
    pub value: [u8; FLAG_PLACES],
    pub cond: [u8; CONDITIONS],
    pub state: [u8; TASK_PLACES],
    pub wake: [u32; TASK_PLACES],
    pub overruns: [u16; TASK_PLACES],
    pub links: Links,
    pub running: u8,
}

impl State {
    // Nothing has happened yet.
    pub fn blank() -> State
        ensures { Blank result }
    {
        let links = chains::fresh();
        State {
            count: 0,
            value: [0; FLAG_PLACES],
            cond: [0; CONDITIONS],
            state: [0; TASK_PLACES],
            wake: [0; TASK_PLACES],
            overruns: [0; TASK_PLACES],
            links,
            running: 0,
        }
    }

    // Who runs.
    pub fn dispatch(&mut self, rig: &Rig)
        requires { self.old.running ≤ 64 }
        ensures { Dispatched self.old rig.now self.new }
    {
        // Nothing is read: by a look at lent links the proof knows the sizes of their arrays, which the state around them does not tell.
        let links = &self.links;
        let _ = links.on[0];
        let n = self.running as usize;
        let c = exec_running::chosen(rig, &self.state, n);
        self.running = c as u8;
    }

    // The running task is inactive, its activation flag queued off.
    pub fn finish(&mut self, rig: &Rig) -> Queue
        requires { self.old.running ≤ 64 }
        ensures { Finished self.old rig.now (record { st = self.new; queue = result }) }
    {
        let t = self.running as usize;
        let mut queue = Queue::empty();
        queue.push(rig.activation[t], OFF);
        self.state[t] = INACTIVE;
        self.running = 0;
        queue
    }

    // The same for task t, taken out of any chain.
    pub fn terminate(&mut self, rig: &Rig, t: usize) -> Queue
        requires holds_chains { HoldsChains self.old.links }
        requires t_nonzero { (0 < t) × (t ≤ 64) }
        ensures { Terminated self.old rig.now t (record { st = self.new; queue = result }) }
    {
        let mut queue = Queue::empty();
        queue.push(rig.activation[t], OFF);
        exec_family::leave(&mut self.links, t);
        self.state[t] = INACTIVE;
        queue
    }

    // Task t and all its descendants become uninvoked and leave their chains; the activation flags of those that were
    // active are queued off.
    pub fn cancel(&mut self, rig: &Rig, t: usize) -> Queue
        requires holds_chains { HoldsChains self.old.links }
        requires cancel_ok { CancelOk rig.now }
        ensures { Cancelled self.old rig.now t (record { st = self.new; queue = result }) }
    {
        let marks = exec_family::family(&rig.controller, t);
        let queue = Queue::of_offs(&rig.activation, &marks, &self.state);
        exec_family::uninvoke(&marks, &mut self.state);
        exec_family::desert(&mut self.links, &marks);
        queue
    }
}
