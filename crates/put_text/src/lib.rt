// A text is copied into a lent buffer.
#![tactic(auto)]

ghost use Rattle.std.specs.Prelude.{◌+◌, ◌≤◌, length};
ghost use Rattle.put_text.specs.Wrote.{Wrote};

// Writes the text at `at`, and answers the place after it.
pub fn put_text(out: &mut [u8], at: usize, text: &[u8]) -> usize
    requires { at + length text.now ≤ length out.old }
    ensures { Wrote out.old at text.now out.new result }
{
    out[at..at + text.len()].copy_from_slice(text);
    at + text.len()
}
