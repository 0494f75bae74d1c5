// A rig's tables of numbers: where a condition stands, and whether numbers are in their sizes. The definitions say what the
// rules ask of the tables, as tests; the crates rig_conditions, rig_a_lines, rig_zeros, rig_cycles, rig_controllers and
// rig_activation compute them, each by loops over lent arrays in time linear in the tables.
#![tactic(auto)]

ghost use Rattle.std.specs.Prelude.{◌≡◌, length};
ghost use Rattle.laws.specs.All.{all};
ghost use Rattle.rig_tables.specs.Tests.{place, within, small_b, small_one};

// Sizes of a rig's tables. Tasks and flags stand at their number, place 0 unused; conditions at 16 * task + position.
pub const TASKS: usize = 64;

pub const TASK_PLACES: usize = 65;

pub const FLAG_PLACES: usize = 129;

pub const POSITIONS: usize = 16;

pub const CONDITIONS: usize = 1040;

pub const LINES: usize = 1024;

pub const CYCLE_FLAGS: usize = 15;

pub const CYCLES: usize = 64;

pub const ROWS: usize = 64;

pub fn place_of(task: u8, position: u8) -> usize
    ensures { result ≡ place task position }
{
    POSITIONS * (task as usize) + (position as usize)
}

pub fn in_range(low: u8, n: u8, high: u8) -> bool
    ensures { result ≡ within low n high }
{
    low <= n && n <= high
}

// Each entry is at most top: the largest is. A loop that keeps the largest goes over many entries at once.
#[tactic(auto, using(crate::specs::Laws::Passes::topped_none, crate::specs::Laws::Passes::topped_max))]
pub fn at_most(table: &[u8], top: u8) -> bool
    ensures { result ≡ all (length table.now) (small_one table.now top) }
{
    let mut most: u8 = 0;
    for x in table {
        most = most.max(*x);
    }
    most <= top
}

// Of a table by task.
#[tactic(auto, unfolding(crate::specs::Tests::small_b))]
pub fn small(l: &[u8; TASK_PLACES], top: u8) -> bool
    ensures { result ≡ small_b l.now top }
{
    at_most(l, top)
}
