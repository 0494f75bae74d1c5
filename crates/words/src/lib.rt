// The paper's worked cases on words, over commands and statuses together, and that both sides of the bus have one parity.
#![tactic(auto)]

ghost use Rattle.std.specs.Prelude.{true, ◌≡◌};

// Whether the parity that the sending side counts is the one that the monitor looks up. It is here for its proof: they "agree on every word".
pub fn parities_agree(word: u16) -> bool
    ensures { result ≡ true }
{
    word_sending::parity(word) == (word_judging::parity::of_word(word) as u32)
}
