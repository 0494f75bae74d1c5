// What each of the 64 minor cycles of a major frame has: whether a row is due in it, how many commands go to a terminal; and what
// the frame has of them.
#![tactic(auto)]

ghost use Rattle.std.specs.Prelude.{◌≡◌, ◌<◌, ◌≤◌, length};
ghost use Rattle.laws.specs.Tables.{at};
ghost use Rattle.rules.specs.Sizes.{minor_cycles};
ghost use Rattle.rules.specs.Frame.{a_frame, due_in, commands_to, commands_in};
ghost use Rattle.compool.specs.View.{row_of, rows_of};
ghost use Rattle.compool.specs.Post.{RowsFit};
ghost use Rattle.wiring_counts.specs.Cycles.{InCycles};

use rig::{Rig, Row};
use rig_tables::CYCLES;

// "Command word, high bits first: address 5": what its address is multiplied by.
const PAST_ELEVEN: u16 = 2048;

// As many words as the rows of a count can have: two a row.
const WORDS: usize = 128;

// How many of the command words speak to the terminal.
fn commands_to(words: &[u16], address: u8) -> u8
    requires { length words.now ≤ 128 }
    ensures { result ≡ commands_to address words.now }
{
    let mut n: u8 = 0;
    for word in words {
        n += u8::from(*word / PAST_ELEVEN == address as u16);
    }
    n
}

// Of each cycle: how often the row is due in it.
pub fn row_cycles(row: &Row) -> [u8; CYCLES]
    requires { 0 < row.now.period }
    ensures { InCycles (due_in (row_of row.now)) minor_cycles result }
{
    let mut cycles = [0u8; CYCLES];
    for c in 0..CYCLES {
        cycles[c] = u8::from(compool::due(row, c as u32));
    }
    cycles
}

// How many commands to the terminal one cycle has.
fn commands_in(rig: &Rig, address: u8, cycle: u32) -> u8
    requires { RowsFit rig.now.rows rig.now.row }
    ensures { result ≡ commands_in rig.now.rows rig.now.master (rows_of rig.now.row) address cycle }
{
    let mut words = [0u16; WORDS];
    let n = compool::bus_words(rig, cycle, &mut words);
    commands_to(&words[..n], address)
}

// Of each cycle: how many commands go to the terminal.
pub fn terminal_cycles(rig: &Rig, address: u8) -> [u8; CYCLES]
    requires { RowsFit rig.now.rows rig.now.row }
    ensures { InCycles (commands_in rig.now.rows rig.now.master (rows_of rig.now.row) address) minor_cycles result }
{
    let mut cycles = [0u8; CYCLES];
    for c in 0..CYCLES {
        cycles[c] = commands_in(rig, address, c as u32);
    }
    cycles
}

// What the cycles of a frame have together.
pub fn frame(cycles: &[u8; CYCLES]) -> u32
    ensures { result ≡ a_frame (at cycles.now) }
{
    let mut sum: u32 = 0;
    for n in cycles {
        sum += *n as u32;
    }
    sum
}
