// The check of arbitrary links: do they hold chains?
#![tactic(auto)]

ghost use Rattle.std.specs.Prelude.{◌≡◌, ◌↔◌, true, ◌+◌, ◌≤◌, ◌<◌};
ghost use Rattle.chains.specs.Held.{at, HoldsChains};
ghost use Rattle.laws.specs.All.{all};
ghost use Rattle.sound_chains.specs.Post.{ring_of, aloneb, Walked, WalkedFrom, AllWalked, TasksTested};

use chain_tests::TASKS;
use chains::{FIRST_ANCHOR, Links, NODES, PLACES};

// Anchors are looked at in blocks of sixteen.
const BLOCK: usize = 16;

// The ring of anchor s, walked once; its tasks are marked. The loop goes from link to link.
pub fn walk_ring<'a>(links: &'a Links, s: usize, seen: &mut [u8; PLACES]) -> bool
    requires { (64 < s) × (s < 322) }
    ensures { Walked links.now s seen.old (record { ok = result; seen = seen.new }) }
{
    let mut left: usize = TASKS;
    let mut u = s;
    let mut v = links.next[s] as usize;
    while v != s {
        if left == 0 {
            return false;
        }
        if !chain_tests::step_ok(links, s, u, v) {
            return false;
        }
        seen[v] = 1;
        left -= 1;
        u = v;
        v = links.next[v] as usize;
    }
    links.prev[s] as usize == u
}

// Every ring of the m anchors from s on, walked once.
fn walk_from<'a>(links: &'a Links, s: usize, m: usize, seen: &mut [u8; PLACES]) -> bool
    requires { (64 < s) × (s + m ≤ 322) }
    ensures { WalkedFrom links.now s m seen.old (record { ok = result; seen = seen.new }) }
{
    for i in 0..m {
        if !walk_ring(links, s + i, &mut *seen) {
            return false;
        }
    }
    true
}

// Whether the sixteen anchors from s on are linked to themselves. What differs is joined and looked at once: so many anchors are
// compared at a time.
fn alone_from(links: &Links, s: usize) -> bool
    requires { s + 16 ≤ 322 }
    ensures { result ≡ all 16 (λ i. aloneb (at links.now.next) (at links.now.prev) (s + i)) }
{
    let mut faults: u16 = 0;
    for i in 0..BLOCK {
        let own = (s + i) as u16;
        faults |= (links.next[s + i] ^ own) | (links.prev[s + i] ^ own);
    }
    faults == 0
}

// The rings of the sixteen anchors from s on. Mostly they are all empty, and then there is nothing to walk.
fn walk_block<'a>(links: &'a Links, s: usize, seen: &mut [u8; PLACES]) -> bool
    requires { (64 < s) × (s + 16 ≤ 322) }
    ensures { WalkedFrom links.now s 16 seen.old (record { ok = result; seen = seen.new }) }
{
    if alone_from(links, s) {
        return true;
    }
    walk_from(links, s, BLOCK, &mut *seen)
}

// Every ring, by blocks of sixteen anchors and what is left of them: the tasks that were met, where every ring is right. In steps of
// sixteen, by the anchor's number: what is left over has another length, and chunks of both tables would have to be kept together.
pub fn walk_all(links: &Links) -> Option<[u8; PLACES]>
    ensures { AllWalked links.now (ring_of result) }
{
    let mut seen = [0u8; PLACES];
    let mut s: usize = FIRST_ANCHOR;
    while s + BLOCK <= NODES {
        if !walk_block(links, s, &mut seen) {
            return None;
        }
        s += BLOCK;
    }
    if !walk_from(links, s, NODES - s, &mut seen) {
        return None;
    }
    Some(seen)
}

// Every task is in no chain, with links 0, or was met on a ring.
pub fn tasks_ok<'a>(links: &'a Links, seen: &'a [u8; PLACES]) -> bool
    ensures { TasksTested links.now seen.now result }
{
    let mut faults: u16 = 0;
    for t in 0..PLACES {
        faults |= chain_tests::task_fault(links.next[t], links.prev[t], links.on[t], seen[t]);
    }
    faults == 0
}

// The links hold chains.
pub fn sound(links: &Links) -> bool
    ensures { (result ≡ true) ↔ HoldsChains links.now }
{
    match walk_all(links) {
        None => false,
        Some(seen) => tasks_ok(links, &seen),
    }
}
