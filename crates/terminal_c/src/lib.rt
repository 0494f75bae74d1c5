// The static library of the crate terminal: each export calls terminal's function of its name, with its clauses.
#![tactic(auto)]

ghost use Rattle.std.specs.Prelude.{◌≡◌};
ghost use Rattle.word_parts.specs.Parity.{image_of};
ghost use Rattle.word_numbers.specs.Numbers.{command_answer, status_answer, made_of};

use word_numbers::Made;

// The command word of fields.
#[unsafe(no_mangle)]
pub extern "C" fn algolmallet_command_word(address: u32, transmit: u32, sub: u32, last: u32) -> Made
    ensures { result ≡ made_of (command_answer address transmit sub last) }
{
    terminal::algolmallet_command_word(address, transmit, sub, last)
}

// The status word of fields.
#[unsafe(no_mangle)]
pub extern "C" fn algolmallet_status_word(
    address: u32,
    error: u32,
    status: u32,
    failure: u32,
) -> Made
    ensures { result ≡ made_of (status_answer address error status failure) }
{
    terminal::algolmallet_status_word(address, error, status, failure)
}

// A word's 17-bit image, its parity from the count of the word's ones.
#[unsafe(no_mangle)]
pub extern "C" fn algolmallet_word_image(word: u16) -> u32
    ensures { result ≡ image_of word }
{
    terminal::algolmallet_word_image(word)
}
