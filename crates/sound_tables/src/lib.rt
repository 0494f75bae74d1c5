// The loops of the soundness check over entries: each over single tables, with the test that it computes as its contract.
#![tactic(auto)]

ghost use Rattle.std.specs.Prelude.{◌≡◌, ◌≤◌, ℕ, get_or};
ghost use Rattle.rules.specs.Calls.{no_such_one};
ghost use Rattle.sound_tables.specs.Tests.{within_b, empty_b, conds_b};
ghost use Rattle.sound_tables.specs.Passes.{After};

use rig_tables::{CONDITIONS, TASK_PLACES};

// Whether n is none of the numbers 1 to many.
#[tactic(auto, unfolding(rules::specs::Calls::no_such_one))]
pub fn no_such(many: usize, n: usize) -> bool
    ensures { result ≡ no_such_one many n }
{
    n == 0 || many < n
}

// The place after the last of 0 to many, in a table of a size.
fn after(many: usize, size: usize) -> usize
    ensures { After many size result }
{
    if many < size { many + 1 } else { size }
}

// The entries of 1 to many are at most top, the others 0.
#[tactic(auto, using(crate::specs::Passes::ends_rise))]
pub fn within(table: &[u8], many: usize, top: u8) -> bool
    ensures { result ≡ within_b table.now many top }
{
    let first = after(0, table.len());
    let end = after(many, table.len());
    rig_tables::at_most(&table[..first], 0)
        && rig_tables::at_most(&table[first..end], top)
        && rig_tables::at_most(&table[end..], 0)
}

// The entries of other numbers than 1 to many are 0. What is there is joined and looked at once, here and in `overruns`: a loop that does
// not leave early joins many entries at once. Two functions: entries of two widths, and for entries of any type `|` has no contract.
pub fn empty(table: &[u32; TASK_PLACES], many: usize) -> bool
    ensures { result ≡ empty_b table.now many }
{
    let mut faults = table[0];
    for i in after(many, TASK_PLACES)..TASK_PLACES {
        faults |= table[i];
    }
    faults == 0
}

// The same of overruns. And each is a number of sixteen bits.
pub fn overruns(numbers: &[u16; TASK_PLACES], many: usize) -> bool
    ensures test { result ≡ empty_b numbers.now many }
    ensures low { (t : ℕ) → get_or numbers.now t 0 ≤ 65535 }
{
    let mut faults = numbers[0];
    for i in after(many, TASK_PLACES)..TASK_PLACES {
        faults |= numbers[i];
    }
    faults == 0
}

// A condition has the value 0 or 1, and one that is not there 0. The loop marks what fails and goes on: one that does not
// leave early tests many entries at once.
pub fn conds<'a>(present: &'a [u8; CONDITIONS], conds: &'a [u8; CONDITIONS]) -> bool
    ensures { result ≡ conds_b present.now conds.now }
{
    let mut bad: u8 = 0;
    for i in 0..CONDITIONS {
        let top = u8::from(present[i] == 1);
        if top < conds[i] {
            bad = 1;
        }
    }
    bad == 0
}
