// Odd parity, looked up byte by byte.
ghost use Rattle.std.specs.Prelude.{true, ◌≡◌};
ghost use Rattle.laws.specs.Tables.{follows};
ghost use Rattle.word_parts.specs.Parity.{parity_bit};

// The parity bit of a word. The bit of each byte is its ones plus one; the bit of the word is the ones of both plus one,
// so one is added again.
pub fn of_word(word: u16) -> u8
    ensures { result ≡ parity_bit word }
{
    let high = of_byte((word / 256) as u8);
    let low = of_byte((word % 256) as u8);
    (1 + high + low) % 2
}

fn of_byte(byte: u8) -> u8
    ensures { result ≡ parity_bit byte }
{
    entry(&PARITY, byte)
}

// The entry of a byte in a table that follows the rule: `follows` tests the whole table at once.
fn entry(table: &[u8; 256], byte: u8) -> u8
    requires { follows 256 parity_bit table.now ≡ true }
    ensures { result ≡ parity_bit byte }
{
    table[byte as usize]
}

// The parity bit of each byte.
const PARITY: [u8; 256] = [
    1, 0, 0, 1, 0, 1, 1, 0, 0, 1, 1, 0, 1, 0, 0, 1, 0, 1, 1, 0, 1, 0, 0, 1, 1, 0, 0, 1, 0, 1, 1, 0,
    0, 1, 1, 0, 1, 0, 0, 1, 1, 0, 0, 1, 0, 1, 1, 0, 1, 0, 0, 1, 0, 1, 1, 0, 0, 1, 1, 0, 1, 0, 0, 1,
    0, 1, 1, 0, 1, 0, 0, 1, 1, 0, 0, 1, 0, 1, 1, 0, 1, 0, 0, 1, 0, 1, 1, 0, 0, 1, 1, 0, 1, 0, 0, 1,
    1, 0, 0, 1, 0, 1, 1, 0, 0, 1, 1, 0, 1, 0, 0, 1, 0, 1, 1, 0, 1, 0, 0, 1, 1, 0, 0, 1, 0, 1, 1, 0,
    0, 1, 1, 0, 1, 0, 0, 1, 1, 0, 0, 1, 0, 1, 1, 0, 1, 0, 0, 1, 0, 1, 1, 0, 0, 1, 1, 0, 1, 0, 0, 1,
    1, 0, 0, 1, 0, 1, 1, 0, 0, 1, 1, 0, 1, 0, 0, 1, 0, 1, 1, 0, 1, 0, 0, 1, 1, 0, 0, 1, 0, 1, 1, 0,
    1, 0, 0, 1, 0, 1, 1, 0, 0, 1, 1, 0, 1, 0, 0, 1, 0, 1, 1, 0, 1, 0, 0, 1, 1, 0, 0, 1, 0, 1, 1, 0,
    0, 1, 1, 0, 1, 0, 0, 1, 1, 0, 0, 1, 0, 1, 1, 0, 1, 0, 0, 1, 0, 1, 1, 0, 0, 1, 1, 0, 1, 0, 0, 1,
];
