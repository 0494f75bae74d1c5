// The tests of minor cycles: the flags of each rise and are small enough, and the marks of minor-cycle flags.
#![tactic(auto)]

ghost use Rattle.std.specs.Prelude.{◌≡◌, true, not, ℕ, ◌≤◌, ◌<◌};
ghost use Rattle.laws.specs.Bits.{bit};
ghost use Rattle.laws.specs.Owners.{marks};
ghost use Rattle.rig_tables.specs.Tests.{at, flag_test, cycle_rises, cycle_small};
ghost use Rattle.rig_cycles.specs.Laws.Cycles.{flags_only};
ghost use Rattle.rig.specs.Rules.{flag_at};
ghost use Rattle.rig_cycles.specs.Tests.{cycles_rise_b, cycles_small_b, minor_marks};

use rig::Cycle;
use rig_tables::{CYCLE_FLAGS, CYCLES, FLAG_PLACES};

// A flag and the one behind it.
const PAIRS: usize = CYCLE_FLAGS - 1;

// 1 where flag h may not stand behind f, else 0: a flag stands behind a lower one, and 0 is none. No part of it is left out by a
// branch: so all places of a cycle are compared at once.
fn fault(f: u8, h: u8) -> u8
    ensures { result ≡ bit (not (flag_test f h)) }
{
    let some = u8::from(0 < h);
    let none_before = u8::from(f == 0);
    let rises = u8::from(f < h);
    some & (none_before | (1 ^ rises))
}

// The flags of one cycle rise, and nothing stands behind the last.
pub fn cycle_rises(flags: &[u8; CYCLE_FLAGS]) -> bool
    ensures { result ≡ cycle_rises flags.now }
{
    let mut faults: u8 = 0;
    for i in 0..PAIRS {
        faults |= fault(flags[i], flags[i + 1]);
    }
    faults == 0
}

// No flag of a cycle is above top. A cycle that rises and begins with 0 has no flag.
#[tactic(auto, using(crate::specs::Laws::Cycles::small_table, crate::specs::Laws::Cycles::small_empty))]
pub fn cycle_small(top: u8, flags: &[u8; CYCLE_FLAGS]) -> bool
    requires { cycle_rises flags.now ≡ true }
    ensures { result ≡ cycle_small top flags.now }
{
    flags[0] == 0 || rig_tables::at_most(flags, top)
}

// Marks each flag of one cycle that rises, up to its first 0. No flag has the number 0, so what is said of the table leaves
// place 0 out.
pub fn mark_cycle(flags: &[u8; CYCLE_FLAGS], table: &mut [u8; FLAG_PLACES])
    requires { (cycle_rises flags.now ≡ true) × ((i : ℕ) → i < 15 → at flags.now i ≤ 128) }
    ensures { flags_only table.new ≡ flags_only (marks 15 (at flags.now) table.old) }
{
    for f in flags {
        if *f == 0 {
            break;
        }
        table[*f as usize] = 1;
    }
}

// The flags of each cycle rise, and nothing stands behind its last.
pub fn cycles_rise(cycles: &[Cycle; CYCLES]) -> bool
    ensures { result ≡ cycles_rise_b cycles.now }
{
    cycles.iter().all(|c| cycle_rises(&c.flags))
}

// No flag of a cycle is above top; the cycles rise, so that each is looked at up to its last flag only.
pub fn cycles_small(top: u8, cycles: &[Cycle; CYCLES]) -> bool
    requires { cycles_rise_b cycles.now ≡ true }
    ensures { result ≡ cycles_small_b top cycles.now }
{
    for c in cycles {
        if !cycle_small(top, &c.flags) {
            return false;
        }
    }
    true
}

// The minor-cycle flags, marked by 1.
pub fn minor_marks(cycles: &[Cycle; CYCLES]) -> [u8; FLAG_PLACES]
    requires { (cycles_rise_b cycles.now ≡ true) × ((c : ℕ) → c < 64 → (i : ℕ) → i < 15 → flag_at cycles.now c i ≤ 128) }
    ensures { result ≡ minor_marks cycles.now }
{
    let mut table = [0u8; FLAG_PLACES];
    for c in cycles {
        mark_cycle(&c.flags, &mut table);
    }
    table[0] = 0;
    table
}
