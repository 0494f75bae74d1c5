// The test of conditions with a minor-cycle flag. What would compare every A line with every other goes by neighbours.
#![tactic(auto)]

ghost use Rattle.std.specs.Prelude.{◌≡◌, ◌&&◌, ℕ, ◌+◌, ◌≤◌, ◌<◌, eqb, length};
ghost use Rattle.laws.specs.All.{all};
ghost use Rattle.rig_tables.specs.Tests.{at, place_of, minor_condition_one, marked, minor_conditions_b};
ghost use Rattle.rig_tables.specs.Lines.{Placed, LinesFit, Together};
ghost use Rattle.rig_minor.specs.Neighbours.{same_before, same_behind, minor_ok_b};

use rig::Rig;
use rig_tables::FLAG_PLACES;

// The condition of A line k.
fn place(rig: &Rig, k: usize) -> usize
    requires { k < 1024 }
    ensures { result ≡ place_of rig.now.line_task rig.now.line_pos k }
{
    rig_tables::place_of(rig.line_task[k], rig.line_pos[k])
}

// Whether the line before A line k is of its condition.
#[tactic(auto, unfolding(crate::specs::Neighbours::same_before))]
fn same_before(rig: &Rig, k: usize) -> bool
    requires { k < 1024 }
    ensures { result ≡ same_before rig.now.line_task rig.now.line_pos k }
{
    0 < k && place(rig, k - 1) == place(rig, k)
}

// Whether the line behind A line k is of its condition.
#[tactic(auto, unfolding(crate::specs::Neighbours::same_behind))]
fn same_behind(rig: &Rig, k: usize) -> bool
    requires { (k < rig.now.lines) × (rig.now.lines ≤ 1024) }
    ensures { result ≡ same_behind rig.now.lines rig.now.line_task rig.now.line_pos k }
{
    k + 1 < rig.lines as usize && place(rig, k + 1) == place(rig, k)
}

// The condition of A line k has no other flag, is unlatched and desires on.
#[tactic(auto, unfolding(crate::specs::Neighbours::minor_ok_b))]
fn minor_ok(rig: &Rig, k: usize) -> bool
    requires { Placed rig.now.lines rig.now.line_task rig.now.line_pos × (k < rig.now.lines) }
    ensures { result
        ≡ minor_ok_b rig.now.lines rig.now.latched rig.now.desired rig.now.line_task rig.now.line_pos k }
{
    let p = place(rig, k);
    rig.latched[p] == 0 && rig.desired[p] == 1 && !same_before(rig, k) && !same_behind(rig, k)
}

// Whether none of some lines' flags is marked. All are looked at: so there is one branch for them.
#[tactic(auto, using(laws::specs::Faults::or_next, rig_tables::specs::Laws::Passes::steps))]
fn none_marked(some: &[u8], flags: &[u8; FLAG_PLACES]) -> bool
    requires { (i : ℕ) → i < length some.now → at some.now i ≤ 128 }
    ensures { result ≡ all (length some.now) (λ i. eqb (at flags.now (at some.now i)) 0) }
{
    let mut found: u8 = 0;
    for f in some {
        found |= flags[*f as usize];
    }
    found == 0
}

// Of the m lines from line k on: the condition of each that has a marked flag has no other flag, is unlatched and desires on.
fn minor_from(rig: &Rig, flags: &[u8; FLAG_PLACES], k: usize, m: usize) -> bool
    requires { LinesFit rig.now.lines rig.now.line_task rig.now.line_pos rig.now.line_flag
        × (Together rig.now.lines rig.now.line_task rig.now.line_pos × (k + m ≤ rig.now.lines)) }
    ensures { result
        ≡ all m (λ i. minor_condition_one rig.now.lines rig.now.latched rig.now.desired rig.now.line_task rig.now.line_pos rig.now.line_flag (marked flags.now) (k + i)) }
{
    (k..k + m).all(|l| flags[rig.line_flag[l] as usize] == 0 || minor_ok(rig, l))
}

// A condition with a minor-cycle flag has no other flag, is unlatched and desires on; flags are the marks of minor-cycle
// flags. Few lines have a marked flag, so that four are passed over at a time. Lines of one condition stand together, so that
// a line's neighbours tell whether its condition has another flag.
pub fn minor_conditions(rig: &Rig, flags: &[u8; FLAG_PLACES]) -> bool
    requires { LinesFit rig.now.lines rig.now.line_task rig.now.line_pos rig.now.line_flag
        × Together rig.now.lines rig.now.line_task rig.now.line_pos }
    ensures { result
        ≡ minor_conditions_b rig.now.lines rig.now.latched rig.now.desired rig.now.line_task rig.now.line_pos rig.now.line_flag (marked flags.now) }
{
    let n = rig.lines as usize;
    for four in 0..n / 4 {
        let k = 4 * four;
        if !none_marked(&rig.line_flag[k..k + 4], flags) && !minor_from(rig, flags, k, 4) {
            return false;
        }
    }
    minor_from(rig, flags, 4 * (n / 4), n % 4)
}
