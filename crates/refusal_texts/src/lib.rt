// The refusals' texts, for a caller that has a buffer: the build paper's words for each number.
#![tactic(auto)]

ghost use Rattle.refusal_texts.specs.Texts.{refusal_text, Given};

// The text and the byte 0, which ends a text in C, if there is room for both. Its length is answered in any case.
fn give(out: &mut [u8], text: &[u8]) -> usize
    ensures { Given text.now out.old out.new result }
{
    let n = text.len();
    if n < out.len() {
        let p = put_text::put_text(&mut *out, 0, text);
        out[p] = 0;
    }
    n
}

// The build paper's words for each number; a number that no refusal has is said to be none. Each text is given where its length is known: handed
// on as a slice it takes half as long again to copy.
#[tactic(auto, unfolding(crate::specs::Texts::refusal_text))]
pub fn refusal_text(number: u32, out: &mut [u8]) -> usize
    ensures { Given (refusal_text number) out.old out.new result }
{
    match number {
        0 => give(out, b"accepted"),
        1 => give(
            out,
            b"a line or script line has the wrong shape, or no LF; empty file (line 1)",
        ),
        2 => give(
            out,
            b"a number is outside its size; file too long (line 0, tested first)",
        ),
        3 => give(out, b"a record is out of order or repeated"),
        4 => give(
            out,
            b"a whole-file rule is broken (line 0), or an entry that takes a rig (start, writer) is given one that breaks any rule",
        ),
        5 => give(
            out,
            b"any call on a record but the tick (start makes the record), while no task is running",
        ),
        6 => give(out, b"no such task, flag or row"),
        7 => give(
            out,
            b"caller is not the named task's controller; signal of an activation or minor-cycle flag; wait on or reading of a minor-cycle flag",
        ),
        8 => give(
            out,
            b"schedule of an invoked task, cancel of an uninvoked one, terminate of one not active",
        ),
        9 => give(out, b"waking count above 2,147,483,647; tick at that count"),
        10 => give(
            out,
            b"a lent buffer has not the length that this paper states for it",
        ),
        11 => give(
            out,
            b"a word's field, an expected address or a status image is outside its size",
        ),
        12 => give(out, b"the record handed in is not sound"),
        _ => give(out, b"no refusal has this number"),
    }
}
