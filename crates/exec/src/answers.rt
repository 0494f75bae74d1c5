// What a call answers.
ghost use Rattle.std.specs.Prelude.{◌≡◌};
ghost use Rattle.exec.specs.Laws.Made.{answer_made};

use crate::{Answer, Report};
use refusals::Refusal;

// What an accepted call tells, or a refusal's number: the answer is told to C and to scripts in numbers.
pub fn answer_of(told: Result<Report, Refusal>) -> Answer
    ensures { result ≡ answer_made told }
{
    match told {
        Ok(report) => Answer::Accepted(report),
        Err(refusal) => Answer::Refused(refusal.number()),
    }
}
