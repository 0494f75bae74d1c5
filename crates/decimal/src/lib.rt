// Decimal numbers without spare zeros: a field is read, a number is written.
#![tactic(auto)]

ghost use Rattle.std.specs.Prelude.{◌≡◌, ◌+◌, ◌≤◌, ◌<◌, length};
ghost use Rattle.decimal.specs.Decimal.{cap, read_byte, number, dec};
ghost use Rattle.put_text.specs.Wrote.{Wrote};

// Three numbers above all values: too large, no decimal, nothing read yet. Numbers, not variants of an error: the contract is `number`, which
// counts them among its values, and the theorems on it stay as they are.
pub const CAP: u64 = 4294967296;

const BAD: u64 = 4294967297;

const START: u64 = 4294967298;

// The byte of the digit 0.
const DIGIT: u64 = 48;

// One byte more of a number: the next value, CAP where that is larger, BAD where the byte does not belong there.
#[tactic(auto, unfolding(crate::specs::Decimal::read_byte))]
fn step_on(m: u64, b: u8) -> u64
    ensures { result ≡ read_byte m b }
{
    if b < b'0' || b'9' < b {
        return BAD;
    }
    let d = b as u64 - DIGIT;
    if m == START {
        return d;
    }
    if m == 0 {
        return BAD;
    }
    if CAP < m {
        return BAD;
    }
    let n = m * 10 + d;
    if n < CAP { n } else { CAP }
}

// What the field says: its value below CAP, CAP for every larger number, and above CAP where it is no decimal.
pub fn number_in(f: &[u8]) -> u64
    ensures { result ≡ number f.now }
{
    let mut m = START;
    for b in f {
        m = step_on(m, *b);
    }
    m
}

// Writes the decimal of `n` at `at`, and answers the place after it. It goes by the last digit, as the decimal is defined.
pub fn put_number(buf: &mut [u8], at: usize, n: u64) -> usize
    requires { (n < cap) × (at + length (dec n) ≤ length buf.old) }
    ensures { Wrote buf.old at (dec n) buf.new result }
{
    if n < 10 {
        buf[at] = b'0' + (n as u8);
        return at + 1;
    }
    let p = put_number(&mut *buf, at, n / 10);
    buf[p] = b'0' + ((n % 10) as u8);
    p + 1
}
