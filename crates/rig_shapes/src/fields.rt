// A line taken apart: its kind, its numbers, how many fields it has. `line` is a line without its LF.
ghost use Rattle.std.specs.Prelude.{◌≡◌, eqb, length, get_or};
ghost use Rattle.text.specs.Split.{split};
ghost use Rattle.rig_lines.specs.Kind.{kind_number, kind_report};
ghost use Rattle.rig_lines.specs.Line.{line_of, others};
ghost use Rattle.rig_shapes.specs.Shape.{spare, spares};

use rig_lines::Kind;

const TAB: u8 = b'\t';

pub(crate) fn kind(line: &[u8]) -> Option<Kind>
    ensures { kind_report result ≡ (line_of line.now).kind }
{
    let q = text::find(line, 0, line.len(), TAB);
    rig_lines::kind_in(&line[0..q])
}

// Whether a line is of the kind.
pub fn has_kind(line: &[u8], k: Kind) -> bool
    ensures { result ≡ eqb (line_of line.now).kind (kind_number k) }
{
    kind(line) == Some(k)
}

// How many fields stand behind the first.
pub(crate) fn many(line: &[u8]) -> usize
    ensures { result ≡ length (others (split 9 line.now)) }
{
    let n = line.len();
    let mut p = text::find(line, 0, n, TAB);
    let mut f: usize = 0;
    while p < n {
        p = text::find(line, p + 1, n, TAB);
        f += 1;
    }
    f
}

// The j-th number, from 0 on; 0 behind the last.
pub fn number(line: &[u8], j: usize) -> u64
    ensures { result ≡ get_or (line_of line.now).nums j 0 }
{
    let n = line.len();
    let mut p = text::find(line, 0, n, TAB);
    let mut left = j;
    while p < n {
        let a = p + 1;
        let b = text::find(line, a, n, TAB);
        if left == 0 {
            return decimal::number_in(&line[a..b]);
        }
        left -= 1;
        p = b;
    }
    0
}

#[tactic(auto, unfolding(crate::specs::Shape::spare))]
fn is_spare(field: &[u8]) -> bool
    ensures { result ≡ spare field.now }
{
    field.len() > 1 && field[0] == b'0'
}

// Whether a field behind the first begins with a zero that is not its only byte.
pub(crate) fn has_spare_zero(line: &[u8]) -> bool
    ensures { result ≡ spares (others (split 9 line.now)) }
{
    let n = line.len();
    let mut p = text::find(line, 0, n, TAB);
    while p < n {
        let a = p + 1;
        let b = text::find(line, a, n, TAB);
        if is_spare(&line[a..b]) {
            return true;
        }
        p = b;
    }
    false
}
