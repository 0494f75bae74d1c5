// The sentence that is said of a refused line: by the reason of its wrong shape, or by the refusal.
#![tactic(auto)]

ghost use Rattle.std.specs.Prelude.{◌≡◌};
ghost use Rattle.rig_shapes.specs.Shape.{reason_number};
ghost use Rattle.rig_line_sentences.specs.Sentences.{shape_sentence, line_sentence};

use rig_shapes::Reason;

#[tactic(auto, unfolding(crate::specs::Sentences::shape_sentence))]
pub fn of_shape(reason: Reason) -> &'static [u8]
    ensures { result.now ≡ shape_sentence (reason_number reason) }
{
    match reason {
        Reason::EmptyFile => b"the file is empty",
        Reason::NoLineEnd => b"the last line has no line end (LF)",
        Reason::ByteOrderMark => b"the file begins with a byte-order mark: save it without one",
        Reason::CarriageReturn => b"the line has a carriage return (CR): lines end in LF alone",
        Reason::EmptyLine => b"the line is empty",
        Reason::Space => b"the line has a space: fields are parted by one tab",
        Reason::UnknownKind => b"the line begins with no known kind: RIG, T, C, A, M or B",
        Reason::TooFewFields => b"the line has too few fields for its kind",
        Reason::TooManyFields => b"the line has too many fields for its kind",
        Reason::SpareZero => b"a number has a spare zero in front",
        Reason::NoDecimal => b"a field is no decimal number",
    }
}

// The same by a reason's number, for one that comes from elsewhere: a number that no other reason has is told as the last.
pub fn of_number(reason: u8) -> &'static [u8]
    ensures { result.now ≡ shape_sentence reason }
{
    match reason {
        1 => of_shape(Reason::EmptyFile),
        2 => of_shape(Reason::NoLineEnd),
        3 => of_shape(Reason::ByteOrderMark),
        4 => of_shape(Reason::CarriageReturn),
        5 => of_shape(Reason::EmptyLine),
        6 => of_shape(Reason::Space),
        7 => of_shape(Reason::UnknownKind),
        8 => of_shape(Reason::TooFewFields),
        9 => of_shape(Reason::TooManyFields),
        10 => of_shape(Reason::SpareZero),
        _ => of_shape(Reason::NoDecimal),
    }
}

// By the number and the line that the reader answers.
#[tactic(auto, unfolding(crate::specs::Sentences::line_sentence))]
pub fn of_line(number: u8, line: usize) -> &'static [u8]
    ensures { result.now ≡ line_sentence number line }
{
    if line == 0 {
        return b"the file is longer than 40,960 bytes";
    }
    if number == 2 {
        return b"a number is outside its size";
    }
    b"the record is out of order or repeated"
}
