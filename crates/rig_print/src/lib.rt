// A line of a rig file as text, put into a buffer.
#![tactic(auto)]

ghost use Rattle.std.specs.Prelude.{◌≡◌, ◌+◌, ◌≤◌, length};
ghost use Rattle.put_text.specs.Wrote.{Wrote};
ghost use Rattle.rig_lines.specs.Kinds.{name_of};
ghost use Rattle.rig_lines.specs.Kind.{kind_number};
ghost use Rattle.rig_print.specs.Line.{begun, line_text};

use rig_lines::Kind;

// The name that a line of a kind begins with.
#[tactic(auto, unfolding(rig_lines::specs::Kinds::name_of))]
fn name(kind: Kind) -> &'static [u8]
    ensures { result.now ≡ name_of (kind_number kind) }
{
    match kind {
        Kind::Rig => b"RIG",
        Kind::Task => b"T",
        Kind::Condition => b"C",
        Kind::Line => b"A",
        Kind::Flag => b"M",
        Kind::Row => b"B",
    }
}

// The first `m` numbers, each after a tab.
fn put_fields(buf: &mut [u8], at: usize, m: usize, v: [u8; 9]) -> usize
    requires { (m ≤ 9) × (at + length (begun v m) ≤ length buf.old) }
    ensures { Wrote buf.old at (begun v m) buf.new result }
{
    let mut p = at;
    for f in 0..m {
        buf[p] = b'\t';
        p = decimal::put_number(&mut *buf, p + 1, v[f] as u64);
    }
    p
}

// One line: its kind's name, its numbers and LF.
pub fn put_line(buf: &mut [u8], at: usize, kind: Kind, v: [u8; 9]) -> usize
    requires { at + length (line_text (kind_number kind) v) ≤ length buf.old }
    ensures { Wrote buf.old at (line_text (kind_number kind) v) buf.new result }
{
    let p = put_text::put_text(&mut *buf, at, name(kind));
    let q = put_fields(&mut *buf, p, kind.count(), v);
    buf[q] = b'\n';
    q + 1
}
