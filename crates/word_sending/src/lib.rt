// The sending side: a word's parity "by counting the word's ones with the machine's own operation", and its image. Nothing here, and
// nothing that it is built on, has a table: a terminal board has no flash to spare.
#![tactic(auto)]

ghost use Rattle.std.specs.Prelude.{◌≡◌};
ghost use Rattle.word_parts.specs.Parity.{parity_bit, image_of};

use word_parts::packed::PAST_ONE;

// The parity bit of a word: its ones and this bit are odd in number.
pub fn parity(word: u16) -> u32
    ensures { result ≡ parity_bit word }
{
    (1 + u16::count_ones(word)) % 2
}

// The 17-bit image of a word.
pub fn image(word: u16) -> u32
    ensures { result ≡ image_of word }
{
    let bit = parity(word);
    (word as u32) * PAST_ONE + bit
}
