// A line of the wiring sheet as text: a name, a number, how often in a frame, and what more there is to say or, in a table, a column for each minor
// cycle of the frame.
#![tactic(auto)]

ghost use Rattle.std.specs.Prelude.{[], ◌∷◌, ◌++◌, true, cond, ◌+◌, ◌≤◌, length};
ghost use Rattle.laws.specs.Tables as tables;
ghost use Rattle.put_text.specs.Wrote.{Wrote};
ghost use Rattle.text.specs.Split.{lf};
ghost use Rattle.bench_script.specs.Output.{fields_text, room_of_field};
ghost use Rattle.wiring_lines.specs.Line.{cell, cells_text, numbers_text, sheet_line, top_text, refused_text, usage_text, head_room, cells_room, line_room};

use rig_tables::CYCLES;

// A tab, and the number unless it is 0.
fn put_cell(out: &mut [u8], at: usize, n: u8) -> usize
    requires { at + room_of_field ≤ length out.old }
    ensures { Wrote out.old at (cell n) out.new result }
{
    if n == 0 {
        out[at] = bench_script::TAB;
        return at + 1;
    }
    bench_script::put_field(out, at, n as u32)
}

// A cell for each cycle.
fn put_cells(out: &mut [u8], at: usize, cycles: &[u8; CYCLES]) -> usize
    requires { at + cells_room ≤ length out.old }
    ensures { Wrote out.old at (cells_text (tables.at cycles.now)) out.new result }
{
    let mut p = at;
    for n in cycles {
        p = put_cell(&mut *out, p, *n);
    }
    p
}

// The number of each cycle, after a tab.
fn put_numbers(out: &mut [u8], at: usize) -> usize
    requires { at + cells_room ≤ length out.old }
    ensures { Wrote out.old at numbers_text out.new result }
{
    let mut p = at;
    for cycle in 0..CYCLES {
        p = bench_script::put_field(&mut *out, p, cycle as u32);
    }
    p
}

// The end of a line.
fn put_end(out: &mut [u8], at: usize) -> usize
    requires { at + 1 ≤ length out.old }
    ensures { Wrote out.old at (lf ∷ []) out.new result }
{
    put_text::put_text(out, at, b"\n")
}

// The table's first line.
fn put_header(out: &mut [u8]) -> usize
    requires { line_room ≤ length out.old }
    ensures { Wrote out.old 0 (top_text true) out.new result }
{
    let a = put_text::put_text(&mut *out, 0, b"KIND\tNUMBER\tTIMES");
    let b = put_numbers(&mut *out, a);
    put_end(out, b)
}

// What stands in front of the lines.
pub fn put_top(out: &mut [u8], table: bool) -> usize
    requires { line_room ≤ length out.old }
    ensures { Wrote out.old 0 (top_text table) out.new result }
{
    if table {
        return put_header(out);
    }
    0
}

// What a line begins with: a name and two numbers.
fn put_head(out: &mut [u8], at: usize, name: &[u8], number: u32, times: u32) -> usize
    requires { (length name.now ≤ 8) × (at + head_room ≤ length out.old) }
    ensures { Wrote out.old at (name.now ++ fields_text (number ∷ times ∷ [])) out.new result }
{
    let a = put_text::put_text(&mut *out, at, name);
    let b = bench_script::put_field(&mut *out, a, number);
    bench_script::put_field(out, b, times)
}

// What stands behind that: the cells in a table, else what more there is to say.
fn put_rest(out: &mut [u8], at: usize, table: bool, cycles: &[u8; CYCLES], more: &[u16]) -> usize
    requires { (length more.now ≤ 2) × (at + cells_room ≤ length out.old) }
    ensures { Wrote out.old at (cond table (cells_text (tables.at cycles.now)) (fields_text more.now)) out.new result }
{
    if table {
        return put_cells(out, at, cycles);
    }
    bench_script::put_words(out, at, more)
}

// A line of the sheet.
pub fn put_line(
    out: &mut [u8],
    at: usize,
    table: bool,
    name: &[u8],
    number: u32,
    times: u32,
    cycles: &[u8; CYCLES],
    more: &[u16],
) -> usize
    requires { (length name.now ≤ 8) × (length more.now ≤ 2) × (at + line_room ≤ length out.old) }
    ensures { Wrote out.old at (sheet_line table name.now number times (tables.at cycles.now) more.now) out.new result }
{
    let a = put_head(&mut *out, at, name, number, times);
    let b = put_rest(&mut *out, a, table, cycles, more);
    put_end(out, b)
}

// The line of a rig that is refused.
pub fn put_refused(out: &mut [u8], number: u32, line: u32) -> usize
    requires { line_room ≤ length out.old }
    ensures { Wrote out.old 0 (refused_text number line) out.new result }
{
    let a = put_head(&mut *out, 0, b"RIG", number, line);
    put_end(out, a)
}

// The line for an option that there is not.
pub fn put_usage(out: &mut [u8]) -> usize
    requires { line_room ≤ length out.old }
    ensures { Wrote out.old 0 usage_text out.new result }
{
    put_text::put_text(out, 0, b"usage: wiring [--table] < RIG\n")
}
