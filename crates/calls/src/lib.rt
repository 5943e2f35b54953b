// The operations Start, Pend and Run: why they refuse, and in specs/ what they do, alone and in lists. No code that runs but
// the number of a refusal: the crate above proves its code against these definitions.
#![tactic(auto)]

// Why an operation refuses; one that acts answers `Ok`.
#[derive(Clone, Copy)]
pub enum Refused {
    WrongMemory,
    Unsound,
    NoPartition,
    NoLine,
    NoPlace,
    TooManyTicks,
}

impl From<Refused> for u32 {
    ghost use Rattle.std.specs.Prelude.{◌≡◌};
    ghost use Rattle.calls.specs.Outcomes.{refused_number};

    ghost from_gives = { λ refused number. number ≡ refused_number refused };

    fn from(refused: Refused) -> u32 {
        match refused {
            Refused::WrongMemory => 9,
            Refused::Unsound => 10,
            Refused::NoPartition => 11,
            Refused::NoLine => 12,
            Refused::NoPlace => 13,
            Refused::TooManyTicks => 14,
        }
    }
}
