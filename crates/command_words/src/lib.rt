// Command words: fields to the word, and any word to its fields.
#![tactic(auto)]

ghost use Rattle.std.specs.Prelude.{◌≡◌};
ghost use Rattle.word_answers.specs.Answers.{encoded_report};
ghost use Rattle.command_words.specs.Command.{command_report, command_in_size, command_fields, last_in_size, last_of};

use word_answers::OutsideSize;
use word_parts::packed::{self, LAST_OF_FIVE, PAST_ELEVEN, PAST_FIVE, PAST_TEN};

// "sub-address 0 makes it a mode command"
const MODE_SUB: u32 = 0;
// the most words of a message
const MOST_WORDS: u32 = 32;

// A command by its fields. `last` is the number of words or, at sub-address 0, the number of the mode command.
#[derive(Clone, Copy, Debug, PartialEq, Eq)]
pub struct Command {
    pub address: u32,
    pub transmit: bool,
    pub sub: u32,
    pub last: u32,
}

// The word of a command, refused exactly when a field is outside its size.
pub fn word(c: Command) -> Result<u16, OutsideSize>
    ensures { encoded_report result ≡ command_report c }
{
    if in_size(c) {
        Ok(packed::command(c.address, c.transmit as u32, c.sub, c.last))
    } else {
        Err(OutsideSize)
    }
}

// The fields of any word.
pub fn fields(word: u16) -> Command
    ensures { result ≡ command_fields word }
{
    let w = word as u32;
    let sub = w / PAST_FIVE % PAST_FIVE;
    Command {
        address: w / PAST_ELEVEN,
        transmit: w / PAST_TEN % 2 == 1,
        sub,
        last: last_of(sub == MODE_SUB, w % PAST_FIVE),
    }
}

#[tactic(auto, unfolding(crate::specs::Command::command_in_size, laws::specs::All::all_of))]
fn in_size(c: Command) -> bool
    ensures { result ≡ command_in_size c }
{
    c.address <= LAST_OF_FIVE && c.sub <= LAST_OF_FIVE && last_in_size(c.sub == MODE_SUB, c.last)
}

#[tactic(auto, unfolding(crate::specs::Command::last_in_size))]
fn last_in_size(mode: bool, last: u32) -> bool
    ensures { result ≡ last_in_size mode last }
{
    if mode {
        last <= LAST_OF_FIVE
    } else {
        1 <= last && last <= MOST_WORDS
    }
}

// What the last five bits say.
#[tactic(auto, unfolding(crate::specs::Command::last_of))]
fn last_of(mode: bool, field: u32) -> u32
    ensures { result ≡ last_of mode field }
{
    if !mode && field == 0 {
        MOST_WORDS
    } else {
        field
    }
}
