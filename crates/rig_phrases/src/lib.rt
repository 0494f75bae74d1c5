// What stands in the sentences that are said of a rig file: numbers and counts, written one behind the other. The phrases round them are
// fixed texts, which the callers write (specs/Phrases).
#![tactic(auto)]

ghost use Rattle.std.specs.Prelude.{◌+◌, ◌≤◌, length};
ghost use Rattle.put_text.specs.Wrote.{Wrote};
ghost use Rattle.rig_phrases.specs.Writing.{number_text, counted_text};

use put_text::put_text;

// What stands before a count, and the words behind it: for one, and for more.
#[derive(Debug, Clone, Copy, PartialEq, Eq)]
pub struct Words {
    pub lead: &'static [u8],
    pub one: &'static [u8],
    pub more: &'static [u8],
}

// A number in decimal. One of more than ten digits, to which no file leads, is left out.
pub fn put_number(out: &mut [u8], at: usize, n: u64) -> usize
    requires { at + 10 ≤ length out.old }
    ensures { Wrote out.old at (number_text n) out.new result }
{
    if n < decimal::CAP {
        return decimal::put_number(out, at, n);
    }
    at
}

// A count among its words.
pub fn put_count(out: &mut [u8], at: usize, words: Words, n: u64) -> usize
    requires { (at + 64 ≤ length out.old) × (length words.lead.now ≤ 16) × (length words.one.now ≤ 16) × (length words.more.now ≤ 16) }
    ensures { Wrote out.old at (counted_text words.lead.now n words.one.now words.more.now) out.new result }
{
    let a = put_text(&mut *out, at, words.lead);
    let b = put_number(&mut *out, a, n);
    if n == 1 {
        return put_text(out, b, words.one);
    }
    put_text(out, b, words.more)
}
