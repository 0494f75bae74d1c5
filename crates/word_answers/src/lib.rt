// What the word entries answer.
#![tactic(auto)]

ghost use Rattle.std.specs.Prelude.{◌≡◌};
ghost use Rattle.word_answers.specs.Answers.{report};

// the refusal's number
pub const OUTSIDE_SIZE: u32 = 11;

// That a field, an expected address or a status image is outside its size: the one refusal of a word entry. The entry
// answers `Result<T, OutsideSize>`: the word made of fields, or the verdict on an image.
#[derive(Clone, Copy, Debug, PartialEq, Eq)]
pub struct OutsideSize;

// The paper's number of an answer: 0 accepted, else the refusal's.
pub fn number<T: Copy>(answer: Result<T, OutsideSize>) -> u32
    ensures { result ≡ (report answer).number }
{
    match answer {
        Ok(_) => 0,
        Err(_) => OUTSIDE_SIZE,
    }
}
