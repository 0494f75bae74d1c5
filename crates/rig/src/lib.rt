// The rig by value: what a rig file says, by number. Entries beyond its counts are 0.
#![tactic(auto)]

ghost use Rattle.std.specs.Prelude.{◌≡◌};
ghost use Rattle.rig.specs.Forms.{cycles_of, table_of, no_rig, no_cycles};

use rig_tables::{CONDITIONS, CYCLE_FLAGS, CYCLES, LINES, ROWS, TASK_PLACES};

// A B line: sender and receiver with their sub-addresses, words, period and phase.
#[repr(C)]
#[derive(Clone, Copy, Debug, PartialEq, Eq)]
pub struct Row {
    pub sender: u8,
    pub sender_sub: u8,
    pub receiver: u8,
    pub receiver_sub: u8,
    pub words: u8,
    pub period: u8,
    pub phase: u8,
}

impl Row {
    // The row of all zeros.
    pub const NONE: Row = Row {
        sender: 0,
        sender_sub: 0,
        receiver: 0,
        receiver_sub: 0,
        words: 0,
        period: 0,
        phase: 0,
    };
}

// The flags of one minor cycle in file order, and 0 behind the last.
#[repr(C)]
#[derive(Clone, Copy, Debug, PartialEq, Eq)]
pub struct Cycle {
    pub flags: [u8; CYCLE_FLAGS],
}

// Tasks and flags stand at their number, place 0 unused; a condition at 16 * task + position, present 1 where it has a
// C line; A lines and rows in file order. The cycles stand beside the rig. Numbers only, and arrays side by side: C lends the
// record, and any bytes are a rig.
#[repr(C)]
#[derive(Clone, Copy, Debug, PartialEq, Eq)]
pub struct Rig {
    pub tasks: u8,
    pub flags: u8,
    pub master: u8,
    pub lines: u16,
    pub rows: u8,
    pub controller: [u8; TASK_PLACES],
    pub priority: [u8; TASK_PLACES],
    pub privileged: [u8; TASK_PLACES],
    pub activation: [u8; TASK_PLACES],
    pub present: [u8; CONDITIONS],
    pub latched: [u8; CONDITIONS],
    pub desired: [u8; CONDITIONS],
    pub line_task: [u8; LINES],
    pub line_pos: [u8; LINES],
    pub line_flag: [u8; LINES],
    pub row: [Row; ROWS],
}

// The rig of all zeros.
pub fn none() -> Rig
    ensures { result ≡ no_rig }
{
    Rig {
        tasks: 0,
        flags: 0,
        master: 0,
        lines: 0,
        rows: 0,
        controller: [0; TASK_PLACES],
        priority: [0; TASK_PLACES],
        privileged: [0; TASK_PLACES],
        activation: [0; TASK_PLACES],
        present: [0; CONDITIONS],
        latched: [0; CONDITIONS],
        desired: [0; CONDITIONS],
        line_task: [0; LINES],
        line_pos: [0; LINES],
        line_flag: [0; LINES],
        row: [Row::NONE; ROWS],
    }
}

// Cycles with no flag.
pub fn no_cycles() -> [Cycle; CYCLES]
    ensures { result ≡ no_cycles }
{
    let c = Cycle {
        flags: [0; CYCLE_FLAGS],
    };
    [c; CYCLES]
}

// The cycles as row structs, from an array of arrays. Both forms go by value, and each way has its function, as the paper names them.
pub fn cycles_of(table: [[u8; CYCLE_FLAGS]; CYCLES]) -> [Cycle; CYCLES]
    ensures { result ≡ cycles_of table }
{
    let mut cycles = no_cycles();
    for c in 0..CYCLES {
        cycles[c] = Cycle { flags: table[c] };
    }
    cycles
}

// The cycles as an array of arrays, from row structs.
pub fn table_of(cycles: [Cycle; CYCLES]) -> [[u8; CYCLE_FLAGS]; CYCLES]
    ensures { result ≡ table_of cycles }
{
    let mut table = [[0u8; CYCLE_FLAGS]; CYCLES];
    for c in 0..CYCLES {
        table[c] = cycles[c].flags;
    }
    table
}
