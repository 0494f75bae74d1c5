// Words and their fields for C, where every field is a number: fields of one bit too, which then can be outside their size.
#![tactic(auto)]

ghost use Rattle.std.specs.Prelude.{◌≡◌};
ghost use Rattle.word_answers.specs.Answers.{encoded_report};
ghost use Rattle.command_words.specs.Command.{command_fields};
ghost use Rattle.status_words.specs.Status.{status_fields};
ghost use Rattle.word_numbers.specs.Numbers.{command_answer, status_answer, made_of, command_numbers, status_numbers};

use command_words::Command;
use status_words::Status;
use word_answers::{OUTSIDE_SIZE, OutsideSize};

// the last number of a field of one bit
const LAST_OF_ONE: u32 = 1;

// What is answered to fields: the refusal's number, 0 for none, and the word, 0 after a refusal.
#[repr(C)]
#[derive(Clone, Copy, Debug, PartialEq, Eq)]
pub struct Made {
    pub refusal: u32,
    pub word: u16,
}

// A command word's fields.
#[repr(C)]
#[derive(Clone, Copy, Debug, PartialEq, Eq)]
pub struct CommandNumbers {
    pub address: u32,
    pub transmit: u32,
    pub sub: u32,
    pub last: u32,
}

// A status word's fields.
#[repr(C)]
#[derive(Clone, Copy, Debug, PartialEq, Eq)]
pub struct StatusNumbers {
    pub address: u32,
    pub error: u32,
    pub status: u32,
    pub failure: u32,
}

// The word of a command, refused exactly when a field is outside its size.
pub fn command_word(address: u32, transmit: u32, sub: u32, last: u32) -> Made
    ensures { result ≡ made_of (command_answer address transmit sub last) }
{
    if LAST_OF_ONE < transmit {
        return made_of(Err(OutsideSize));
    }
    made_of(command_words::word(Command {
        address,
        transmit: transmit == 1,
        sub,
        last,
    }))
}

// The word of a status, refused exactly when a field is outside its size.
pub fn status_word(address: u32, error: u32, status: u32, failure: u32) -> Made
    ensures { result ≡ made_of (status_answer address error status failure) }
{
    if LAST_OF_ONE < error {
        return made_of(Err(OutsideSize));
    }
    if LAST_OF_ONE < failure {
        return made_of(Err(OutsideSize));
    }
    made_of(status_words::word(Status {
        address,
        error: error == 1,
        status,
        failure: failure == 1,
    }))
}

// The fields of any command word.
pub fn command_fields(word: u16) -> CommandNumbers
    ensures { result ≡ command_numbers (command_fields word) }
{
    let c = command_words::fields(word);
    CommandNumbers {
        address: c.address,
        transmit: c.transmit as u32,
        sub: c.sub,
        last: c.last,
    }
}

// The fields of any status word.
pub fn status_fields(word: u16) -> StatusNumbers
    ensures { result ≡ status_numbers (status_fields word) }
{
    let s = status_words::fields(word);
    StatusNumbers {
        address: s.address,
        error: s.error as u32,
        status: s.status,
        failure: s.failure as u32,
    }
}

fn made_of(answer: Result<u16, OutsideSize>) -> Made
    ensures { result ≡ made_of (encoded_report answer) }
{
    match answer {
        Ok(word) => Made { refusal: 0, word },
        Err(_) => Made {
            refusal: OUTSIDE_SIZE,
            word: 0,
        },
    }
}
