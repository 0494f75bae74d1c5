// Wait chains: doubly linked rings over 64 tasks, each round an anchor. Node numbers: tasks 1 to 64, anchors 65 to 321.
#![tactic(auto)]

ghost use Rattle.std.specs.Prelude.{◌≡◌, ◌≤◌, ◌<◌};
ghost use Rattle.chains.specs.Held.{at, HoldsChains, Leaves, Joins, Inserts, Places, Puts, Empty};

// Place 0 is no node.
pub const PLACES: usize = 65;

pub const FIRST_ANCHOR: usize = 65;

pub const NODES: usize = 322;

// Numbers only: C lends memory of any bytes. So that they hold chains is asked of each function, and is no invariant of the type.
#[repr(C)]
#[derive(Clone, Copy, Debug, PartialEq, Eq)]
pub struct Links {
    pub next: [u16; NODES],
    pub prev: [u16; NODES],
    // the anchor of the chain that a task is in, or 0
    pub on: [u16; PLACES],
}

// Task t leaves its chain.
pub fn unlink(l: &mut Links, t: usize)
    requires holds_chains { HoldsChains l.old }
    requires t_nonzero { (0 < t) × (t ≤ 64) × (at l.old.on t ≡ 0 → ⊥) }
    ensures { Leaves l.old t l.new }
{
    let u = l.prev[t];
    let v = l.next[t];
    l.next[u as usize] = v;
    l.next[t] = 0;
    l.prev[v as usize] = u;
    l.prev[t] = 0;
    l.on[t] = 0;
}

// Task t goes behind the node u of the chain of anchor s.
pub fn link_after(l: &mut Links, s: usize, u: usize, t: usize)
    requires holds_chains { HoldsChains l.old }
    requires puts { Puts l.old s u t }
    ensures { Inserts l.old s u t l.new }
{
    let v = l.next[u];
    l.next[u] = t as u16;
    l.next[t] = v;
    l.prev[v as usize] = t as u16;
    l.prev[t] = u as u16;
    l.on[t] = s as u16;
}

// Task t goes to the end of the chain of anchor s.
pub fn append(l: &mut Links, s: usize, t: usize)
    requires holds_chains { HoldsChains l.old }
    requires puts { Puts l.old s s t }
    ensures { Joins l.old s t l.new }
{
    let u = l.prev[s] as usize;
    link_after(l, s, u, t);
}

// Task t goes to its place by waking count in the chain of anchor s, behind those with the same count.
pub fn place(l: &mut Links, wake: &[u32; PLACES], s: usize, t: usize)
    requires holds_chains { HoldsChains l.old }
    requires puts { Puts l.old s s t }
    ensures { Places l.old wake.now s t l.new }
{
    let w = wake[t];
    let mut u = s;
    let mut v = l.next[s] as usize;
    while v != s {
        if w < wake[v] {
            break;
        }
        u = v;
        v = l.next[v] as usize;
    }
    link_after(l, s, u, t);
}

// No task is in a chain: each anchor is linked to itself.
pub fn fresh() -> Links
    ensures { Empty result }
{
    let mut next = [0u16; NODES];
    let mut prev = [0u16; NODES];
    for i in FIRST_ANCHOR..NODES {
        next[i] = i as u16;
        prev[i] = i as u16;
    }
    let on = [0u16; PLACES];
    Links { next, prev, on }
}
