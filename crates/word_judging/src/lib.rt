// The monitor's side: an image with parity, judged against the address that is expected. Its parity is looked up in a table (parity).
#![tactic(auto)]

ghost use Rattle.std.specs.Prelude.{◌≡◌, ◌<◌};
ghost use Rattle.word_judging.specs.Answers.{judged_report, number_told, verdict_number};
ghost use Rattle.word_judging.specs.Judging.{judged_as, is_exception, verdict_of};

use status_words::Status;
use word_answers::{OUTSIDE_SIZE, OutsideSize};
use word_parts::packed::{LAST_OF_FIVE, PAST_ONE};

pub mod parity;

// the last image
const LAST_OF_SEVENTEEN: u32 = 131071;

#[derive(Clone, Copy, Debug, PartialEq, Eq)]
pub enum Verdict {
    Error,
    Exception,
    Clean,
}

impl Verdict {
    // A verdict as a number: 0 clean, 1 exception, 2 error.
    pub fn number(self) -> u32
        ensures { result ≡ verdict_number self }
    {
        match self {
            Verdict::Clean => 0,
            Verdict::Exception => 1,
            Verdict::Error => 2,
        }
    }
}

// An answer as one number, for C: the verdict's, or 11 refused.
pub fn told(answer: Result<Verdict, OutsideSize>) -> u32
    ensures { result ≡ number_told (judged_report answer) }
{
    match answer {
        Ok(verdict) => verdict.number(),
        Err(_) => OUTSIDE_SIZE,
    }
}

// An image judged against the expected address, refused exactly when one of the two is outside its size.
#[tactic(auto, unfolding(crate::specs::Judging::judged_as, word_answers::specs::Answers::if_in_size, laws::specs::All::all_of))]
pub fn judge(image: u32, address: u32) -> Result<Verdict, OutsideSize>
    ensures { judged_report result ≡ judged_as image address }
{
    if LAST_OF_SEVENTEEN < image || LAST_OF_FIVE < address {
        return Err(OutsideSize);
    }
    Ok(verdict_on(image, address))
}

// The same, told as one number.
pub fn judge_told(image: u32, address: u32) -> u32
    ensures { result ≡ number_told (judged_as image address) }
{
    told(judge(image, address))
}

fn verdict_on(image: u32, address: u32) -> Verdict
    requires { image < 131072 }
    ensures { result ≡ verdict_of image address }
{
    let word = (image / PAST_ONE) as u16;
    if image % PAST_ONE != parity::of_word(word) as u32 {
        return Verdict::Error;
    }
    let s = status_words::fields(word);
    if s.address != address {
        return Verdict::Error;
    }
    if exception(s) {
        return Verdict::Exception;
    }
    Verdict::Clean
}

#[tactic(auto, unfolding(crate::specs::Judging::is_exception))]
fn exception(s: Status) -> bool
    ensures { result ≡ is_exception s }
{
    s.error || s.status != 0 || s.failure
}
