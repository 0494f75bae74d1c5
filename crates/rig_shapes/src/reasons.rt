// Why a line has the wrong shape: the first reason that fits it.
ghost use Rattle.std.specs.Prelude.{◌≡◌};
ghost use Rattle.rig_shapes.specs.Shape.{has, marked, reason_number, field_reason, line_reason, reason_of};

use crate::fields;

#[derive(Debug, Clone, Copy, PartialEq, Eq)]
pub enum Reason {
    EmptyFile,
    NoLineEnd,
    ByteOrderMark,
    CarriageReturn,
    EmptyLine,
    Space,
    UnknownKind,
    TooFewFields,
    TooManyFields,
    SpareZero,
    NoDecimal,
}

fn has(line: &[u8], c: u8) -> bool
    ensures { result ≡ has c line.now }
{
    text::find(line, 0, line.len(), c) < line.len()
}

// The three bytes that some editors put in front of a file.
#[tactic(auto, unfolding(crate::specs::Shape::marked))]
fn is_marked(line: &[u8]) -> bool
    ensures { result ≡ marked line.now }
{
    line.starts_with(b"\xEF\xBB\xBF")
}

fn field_reason(line: &[u8]) -> Reason
    ensures { reason_number result ≡ field_reason line.now }
{
    let Some(kind) = fields::kind(line) else {
        return Reason::UnknownKind;
    };
    let want = kind.count();
    let have = fields::many(line);
    if have < want {
        return Reason::TooFewFields;
    }
    if want < have {
        return Reason::TooManyFields;
    }
    if fields::has_spare_zero(line) {
        return Reason::SpareZero;
    }
    Reason::NoDecimal
}

fn line_reason(line: &[u8]) -> Reason
    ensures { reason_number result ≡ line_reason line.now }
{
    if is_marked(line) {
        return Reason::ByteOrderMark;
    }
    if has(line, b'\r') {
        return Reason::CarriageReturn;
    }
    if line.is_empty() {
        return Reason::EmptyLine;
    }
    if has(line, b' ') {
        return Reason::Space;
    }
    field_reason(line)
}

// Why line `number` of a file, counted from 1, has the wrong shape.
pub fn why(s: &[u8], number: usize) -> Reason
    ensures { reason_number result ≡ reason_of s.now number }
{
    if s.is_empty() {
        return Reason::EmptyFile;
    }
    let n = s.len();
    let mut at: usize = 0;
    let mut left = number;
    while at < n {
        let e = lines::line_of(s, at);
        if e == n {
            return Reason::NoLineEnd;
        }
        if left <= 1 {
            return line_reason(&s[at..e]);
        }
        left -= 1;
        at = e + 1;
    }
    Reason::NoLineEnd
}
