// What a terminal board in C calls, by the exports of crate terminal_c: the sending side. Nothing that it is built on has a table.
#![tactic(auto)]

ghost use Rattle.std.specs.Prelude.{◌≡◌};
ghost use Rattle.word_parts.specs.Parity.{image_of};
ghost use Rattle.word_numbers.specs.Numbers.{command_answer, status_answer, made_of};

use word_numbers::Made;

// The command word of fields.
#[unsafe(no_mangle)]
pub extern "C" fn algolmallet_command_word(address: u32, transmit: u32, sub: u32, last: u32) -> Made
    ensures { result ≡ made_of (command_answer address transmit sub last) }
{
    word_numbers::command_word(address, transmit, sub, last)
}

// The status word of fields.
#[unsafe(no_mangle)]
pub extern "C" fn algolmallet_status_word(
    address: u32,
    error: u32,
    status: u32,
    failure: u32,
) -> Made
    ensures { result ≡ made_of (status_answer address error status failure) }
{
    word_numbers::status_word(address, error, status, failure)
}

// A word's 17-bit image, its parity from the count of the word's ones.
#[unsafe(no_mangle)]
pub extern "C" fn algolmallet_word_image(word: u16) -> u32
    ensures { result ≡ image_of word }
{
    word_sending::image(word)
}
