// The wiring sheet as text: a line for each row and for each terminal that is spoken to; or the same as a table, with a column for each
// minor cycle of a frame.
#![tactic(auto)]

ghost use Rattle.std.specs.Prelude.{◌+◌, ◌*◌, ◌<◌, ◌≤◌, length};
ghost use Rattle.laws.specs.Tables as tables;
ghost use Rattle.rules.specs.Frame.{a_frame};
ghost use Rattle.compool.specs.View.{row_of, rows_of};
ghost use Rattle.compool.specs.Post.{RowsFit};
ghost use Rattle.put_text.specs.Wrote.{Wrote};
ghost use Rattle.wiring_lines.specs.Line.{line_room};
ghost use Rattle.wiring_text.specs.Sheet.{addresses, row_text, spoken_text, rows_text, terminals_text, sheet_text, sheet_room};

use rig::{Rig, Row};
use rig_tables::CYCLES;

// Terminals have the addresses 0 to 31.
const ADDRESSES: usize = 32;

// A row's line.
fn put_row(out: &mut [u8], at: usize, table: bool, number: u32, row: &Row) -> usize
    requires { (0 < row.now.period) × (at + line_room ≤ length out.old) }
    ensures { Wrote out.old at (row_text table number (row_of row.now)) out.new result }
{
    let cycles = wiring_counts::row_cycles(row);
    let times = wiring_counts::frame(&cycles);
    let more = [row.phase as u16, row.period as u16];
    wiring_lines::put_line(out, at, table, b"ROW", number, times, &cycles, &more)
}

// A terminal's line, if it is spoken to.
fn put_terminal(
    out: &mut [u8],
    at: usize,
    table: bool,
    address: u32,
    cycles: &[u8; CYCLES],
) -> usize
    requires { at + line_room ≤ length out.old }
    ensures { Wrote out.old at (spoken_text table address (a_frame (tables.at cycles.now)) (tables.at cycles.now)) out.new result }
{
    let times = wiring_counts::frame(cycles);
    if times == 0 {
        return at;
    }
    wiring_lines::put_line(out, at, table, b"TERMINAL", address, times, cycles, &[])
}

// The lines of the rows.
fn put_rows(out: &mut [u8], at: usize, table: bool, rig: &Rig) -> usize
    requires { RowsFit rig.now.rows rig.now.row × (at + line_room * rig.now.rows ≤ length out.old) }
    ensures { Wrote out.old at (rows_text table rig.now.rows (rows_of rig.now.row)) out.new result }
{
    let rows = &rig.row[..];
    let mut p = at;
    for (i, row) in rows[..rig.rows as usize].iter().enumerate() {
        p = put_row(&mut *out, p, table, (i + 1) as u32, row);
    }
    p
}

// The lines of the terminals that are spoken to.
fn put_terminals(out: &mut [u8], at: usize, table: bool, rig: &Rig) -> usize
    requires { RowsFit rig.now.rows rig.now.row × (at + line_room * addresses ≤ length out.old) }
    ensures { Wrote out.old at (terminals_text table rig.now.rows rig.now.master (rows_of rig.now.row)) out.new result }
{
    let mut p = at;
    for a in 0..ADDRESSES {
        let cycles = wiring_counts::terminal_cycles(rig, a as u8);
        p = put_terminal(&mut *out, p, table, a as u32, &cycles);
    }
    p
}

// The whole sheet, from the buffer's start.
pub fn put_sheet(out: &mut [u8], table: bool, rig: &Rig) -> usize
    requires { RowsFit rig.now.rows rig.now.row × (sheet_room ≤ length out.old) }
    ensures { Wrote out.old 0 (sheet_text table rig.now.rows rig.now.master (rows_of rig.now.row)) out.new result }
{
    let a = wiring_lines::put_top(&mut *out, table);
    let b = put_rows(&mut *out, a, table, rig);
    put_terminals(out, b, table, rig)
}
