// Flags: which are activation or minor-cycle flags, and the queue of those to be served.
#![tactic(auto)]

ghost use Rattle.std.specs.Prelude.{◌≡◌, ◌&&◌, [], ◌<◌, ◌≤◌, eqb};
ghost use Rattle.chains.specs.Held.{at};
ghost use Rattle.rules.specs.Rig.{in_cycle, is_minor, is_activation};
ghost use Rattle.rules.specs.Calls.{cycle_queue};
ghost use Rattle.rules.specs.State.{active};
ghost use Rattle.rules.specs.Family.{offs};
ghost use Rattle.exec_queue.specs.View.{minor_of, entries_of};
ghost use Rattle.exec_queue.specs.Post.{Popped, Pushed};

use exec_running::INACTIVE;
use rig::Cycle;
use rig_tables::{CYCLES, TASK_PLACES, TASKS};

// A call serves at most 79 flags.
pub const QUEUED: usize = 80;

// Whether f is some task's activation flag.
pub fn is_activation(activation: &[u8; TASK_PLACES], f: u8) -> bool
    ensures { result ≡ is_activation (at activation.now) f }
{
    activation[1..].contains(&f)
}

// Whether flag f is on the list of a minor cycle.
pub fn in_cycle(cycle: &Cycle, f: u8) -> bool
    ensures { result ≡ in_cycle (at cycle.now.flags) f }
{
    cycle.flags.contains(&f)
}

// Whether f is a minor-cycle flag.
pub fn is_minor(cycles: &[Cycle; CYCLES], f: u8) -> bool
    ensures { result ≡ is_minor (minor_of cycles.now) f }
{
    cycles.iter().any(|cycle| in_cycle(cycle, f))
}

// What is queued, each a flag and its value: entries 0 to n - 1; the last is taken off first. No equality is derived: it would
// compare what is left behind the last entry too.
#[derive(Clone, Copy, Debug)]
pub struct Queue {
    pub n: usize,
    pub entries: [(u8, u8); QUEUED],
}

impl Queue {
    pub fn empty() -> Queue
        ensures { (entries_of result ≡ []) × (result.n ≡ 0) }
    {
        Queue {
            n: 0,
            entries: [(0, 0); QUEUED],
        }
    }

    // Flag 0 is none, and queues nothing.
    pub fn push(&mut self, f: u8, v: u8)
        requires { self.old.n < 80 }
        ensures { Pushed self.old f v self.new }
    {
        if f != 0 {
            self.entries[self.n] = (f, v);
            self.n += 1;
        }
    }

    // The last queued is taken off: its flag and value.
    pub fn pop(&mut self) -> Option<(u8, u8)>
        requires { self.old.n ≤ 80 }
        ensures { Popped self.old result self.new }
    {
        if self.n == 0 {
            return None;
        }
        self.n -= 1;
        Some(self.entries[self.n])
    }

    // The flags of a cycle's list, each on, in file order.
    pub fn of_cycle(cycle: &Cycle) -> Queue
        ensures { entries_of result ≡ cycle_queue (at cycle.now.flags) }
    {
        let mut q = Queue::empty();
        for f in &cycle.flags {
            q.push(*f, 1);
        }
        q
    }

    // The activation flags of those marked who are active, each off, by rising number.
    pub fn of_offs(
        activation: &[u8; TASK_PLACES],
        marks: &[u8; TASK_PLACES],
        state: &[u8; TASK_PLACES],
    ) -> Queue
        ensures { entries_of result ≡ offs (at activation.now) marks.now state.now }
    {
        let mut q = Queue::empty();
        for i in 0..TASKS {
            let t = i + 1;
            if struck(marks[t], state[t]) {
                q.push(activation[t], 0);
            }
        }
        q
    }
}

// Whether a task with the mark and the state is marked and active.
pub fn struck(mark: u8, state: u8) -> bool
    ensures { result ≡ (eqb mark 1 && eqb (active state) 1) }
{
    mark == 1 && INACTIVE < state
}
