// The refusals of the paper's table, by name and by number.
#![tactic(auto)]

ghost use Rattle.std.specs.Prelude.{◌≡◌};
ghost use Rattle.refusals.specs.Numbers.{refusal_number};

// In the table's order: 1 to 12.
#[derive(Clone, Copy, Debug, PartialEq, Eq)]
pub enum Refusal {
    WrongShape,
    OutsideSize,
    OutOfOrder,
    RuleBroken,
    NobodyRuns,
    NoSuch,
    NotAllowed,
    WrongState,
    PastLastCount,
    WrongLength,
    WordOutsideSize,
    NotSound,
}

impl Refusal {
    // Its number in the table.
    pub fn number(self) -> u8
        ensures { result ≡ refusal_number self }
    {
        match self {
            Refusal::WrongShape => 1,
            Refusal::OutsideSize => 2,
            Refusal::OutOfOrder => 3,
            Refusal::RuleBroken => 4,
            Refusal::NobodyRuns => 5,
            Refusal::NoSuch => 6,
            Refusal::NotAllowed => 7,
            Refusal::WrongState => 8,
            Refusal::PastLastCount => 9,
            Refusal::WrongLength => 10,
            Refusal::WordOutsideSize => 11,
            Refusal::NotSound => 12,
        }
    }
}

impl From<Refusal> for u8 {
    ghost from_gives = { λ r n. n ≡ refusal_number r };

    fn from(r: Refusal) -> u8 {
        r.number()
    }
}
