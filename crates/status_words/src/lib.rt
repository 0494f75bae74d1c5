// Status words: fields to the word, and any word to its fields.
#![tactic(auto)]

ghost use Rattle.std.specs.Prelude.{◌≡◌};
ghost use Rattle.word_answers.specs.Answers.{encoded_report};
ghost use Rattle.status_words.specs.Status.{status_report, status_in_size, status_fields};

use word_answers::OutsideSize;
use word_parts::packed::{self, LAST_OF_FIVE, PAST_ELEVEN, PAST_ONE, PAST_TEN};

// the last status field, and what a field would be multiplied by that stood above it
const LAST_OF_NINE: u32 = 511;

const PAST_NINE: u32 = 512;

// A status word by its fields: message error, the nine status bits, terminal failure.
#[derive(Clone, Copy, Debug, PartialEq, Eq)]
pub struct Status {
    pub address: u32,
    pub error: bool,
    pub status: u32,
    pub failure: bool,
}

// The word of a status, refused exactly when a field is outside its size.
pub fn word(s: Status) -> Result<u16, OutsideSize>
    ensures { encoded_report result ≡ status_report s }
{
    if in_size(s) {
        Ok(packed::status(s.address, s.error as u32, s.status, s.failure as u32))
    } else {
        Err(OutsideSize)
    }
}

// The fields of any word.
#[tactic(auto, unfolding(crate::specs::Status::status_fields))]
pub fn fields(word: u16) -> Status
    ensures { result ≡ status_fields word }
{
    let w = word as u32;
    Status {
        address: w / PAST_ELEVEN,
        error: w / PAST_TEN % 2 == 1,
        status: w / PAST_ONE % PAST_NINE,
        failure: w % PAST_ONE == 1,
    }
}

#[tactic(auto, unfolding(crate::specs::Status::status_in_size, laws::specs::All::all_of))]
fn in_size(s: Status) -> bool
    ensures { result ≡ status_in_size s }
{
    s.address <= LAST_OF_FIVE && s.status <= LAST_OF_NINE
}
