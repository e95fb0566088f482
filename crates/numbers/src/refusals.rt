// Why something is refused: document 01's "Numbers a call can answer", 1 to 11, and the place in a file that goes with it (document 02, E1).
ghost use Rattle.std.specs.Prelude.{◌≡◌};
ghost use Rattle.numbers.specs.Refusals.{number_of};

// The reasons, in the order of their numbers.
#[derive(Clone, Copy, Debug, PartialEq, Eq)]
pub enum Reason {
    CutShort,
    NotShortest,
    Format,
    Size,
    Schedule,
    Value,
    Order,
    Surplus,
    Room,
    CycleTime,
    Times,
}

impl From<Reason> for u8 {
    ghost use Rattle.numbers.specs.Refusals.{number_of};

    ghost from_gives = { λ reason number. number ≡ number_of reason };

    fn from(reason: Reason) -> u8 {
        match reason {
            Reason::CutShort => 1,
            Reason::NotShortest => 2,
            Reason::Format => 3,
            Reason::Size => 4,
            Reason::Schedule => 5,
            Reason::Value => 6,
            Reason::Order => 7,
            Reason::Surplus => 8,
            Reason::Room => 9,
            Reason::CycleTime => 10,
            Reason::Times => 11,
        }
    }
}

// Why a file is refused, and the byte place of it, from 0.
#[derive(Clone, Copy, Debug, PartialEq, Eq)]
pub struct Refusal {
    pub reason: Reason,
    pub at: usize,
}

// The number of its reason, and the place.
impl From<Refusal> for (u8, usize) {
    ghost use Rattle.numbers.specs.Refusals.{number_of};

    ghost from_gives = { λ refusal told. told ≡ (number_of refusal.reason, refusal.at) };

    fn from(refusal: Refusal) -> (u8, usize) {
        (u8::from(refusal.reason), refusal.at)
    }
}
