// What the program `wiring` tells of a rig.
#![tactic(auto)]

ghost use Rattle.std.specs.Prelude.{◌≤◌, length};
ghost use Rattle.put_text.specs.Wrote.{Wrote};
ghost use Rattle.wiring_text.specs.Sheet.{sheet_room};
ghost use Rattle.wiring_sheet.specs.Telling.{file_text, Told};

// More than the longest sheet has.
pub const ROOM: usize = 71392;

// The sheet of a rig file, or why it is refused.
fn sheet(out: &mut [u8], file: &[u8], table: bool) -> usize
    requires { sheet_room ≤ length out.old }
    ensures { Wrote out.old 0 (file_text table file.now) out.new result }
{
    let a = rig_read::read(file);
    if a.no != 0 {
        return wiring_lines::put_refused(out, a.no as u32, a.line as u32);
    }
    wiring_text::put_sheet(out, table, &a.rig)
}

// Tells it: the sheet of the rig that the input begins with, as the program's arguments ask, and its length. `arguments` is how many there
// are, the program's name among them, and `option` the first behind that. With less than ROOM bytes nothing is written.
pub fn tell(arguments: usize, option: &[u8], input: &[u8], out: &mut [u8]) -> usize
    ensures { Told arguments option.now input.now out.old out.new result }
{
    if out.len() < ROOM {
        return 0;
    }
    let end = bench_read::rig_end(input);
    if arguments < 2 {
        return sheet(out, &input[..end], false);
    }
    if 2 < arguments {
        return wiring_lines::put_usage(out);
    }
    if option == b"--table".as_slice() {
        return sheet(out, &input[..end], true);
    }
    wiring_lines::put_usage(out)
}
