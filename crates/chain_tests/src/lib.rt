// Single tests of links: a step of a ring, a task, the order of a chain.
#![tactic(auto)]

ghost use Rattle.std.specs.Prelude.{◌≡◌, not, cond, ◌&&◌, ◌<◌, eqb};
ghost use Rattle.chains.specs.Held.{at, Sized};
ghost use Rattle.chains.specs.Ops.{walk};
ghost use Rattle.chains.specs.Laws.Check.{stepb};
ghost use Rattle.chain_tests.specs.Order.{risingb, Reaches};

use chains::{Links, PLACES};

// Nodes 1 to 64 are tasks.
pub const TASKS: usize = 64;

// v, behind u in the chain of anchor s, is a task that links back to u and names s.
#[tactic(auto, unfolding(chains::specs::Laws::Check::stepb))]
pub fn step_ok(links: &Links, s: usize, u: usize, v: usize) -> bool
    ensures { result ≡ stepb (at links.now.prev) (at links.now.on) 64 s u v }
{
    v != 0 && v <= TASKS && links.prev[v] as usize == u && links.on[v] as usize == s
}

// 0 where a task (or entry 0, which is no task) is in no chain, with links 0, or was met on a ring; else a fault.
#[tactic(auto, using(laws::specs::Faults::or_zero))]
pub fn task_fault(next: u16, prev: u16, on: u16, seen: u8) -> u16
    ensures { eqb result 0 ≡ cond (eqb on 0) (eqb next 0 && eqb prev 0) (not (eqb seen 0)) }
{
    if on == 0 {
        next | prev
    } else {
        u16::from(seen == 0)
    }
}

// The tasks of the chain of anchor s are in order of waking count, none below lo. The loop goes from link to link. And the tables of
// links, lent, have their lengths: a caller who only lends them is told so here.
pub fn in_order<'a>(links: &'a Links, wake: &'a [u32; PLACES], s: usize, lo: u32) -> bool
    requires { (64 < s) × (s < 322) × Reaches (at links.now.next) s s }
    ensures sized { Sized links.now }
    ensures order { result ≡ risingb (at wake.now) lo (walk (at links.now.next) 64 64 s) }
{
    let mut w = lo;
    let mut u = s;
    let mut v = links.next[s] as usize;
    while v != s {
        let x = wake[v];
        if x < w {
            return false;
        }
        w = x;
        u = v;
        v = links.next[u] as usize;
    }
    true
}
