// What open, enter and strike answer, and how C sees it.
ghost use Rattle.std.specs.Prelude.{◌≡◌};
ghost use Rattle.refusals.specs.Numbers.{refusal_number, asked_number};
ghost use Rattle.register.specs.Answers.{entering_number, entering_place, striking_place};

use refusals::Refusal;

// The number and the place. C reads both in any case, so this is a struct of numbers.
#[repr(C)]
#[derive(Clone, Copy, Debug, PartialEq, Eq)]
pub struct Placed {
    pub number: u32,
    pub place: u32,
}

// What enter does: the place of an entry that is new, or of one that was held.
#[derive(Clone, Copy, Debug, PartialEq, Eq)]
pub enum Entered {
    New(u32),
    Held(u32),
}

impl From<Refusal> for Placed {
    ghost from_gives = { λ refusal placed. (placed.number ≡ refusal_number refusal) × (placed.place ≡ 0) };

    fn from(refusal: Refusal) -> Placed {
        Placed {
            number: refusal.into(),
            place: 0,
        }
    }
}

// What open answers.
impl From<Result<(), Refusal>> for Placed {
    ghost from_gives = { λ opened placed. (placed.number ≡ asked_number opened) × (placed.place ≡ 0) };

    fn from(opened: Result<(), Refusal>) -> Placed {
        match opened {
            Ok(()) => Placed {
                number: 0,
                place: 0,
            },
            Err(refusal) => refusal.into(),
        }
    }
}

// What enter answers.
impl From<Result<Entered, Refusal>> for Placed {
    ghost from_gives = { λ entered placed. (placed.number ≡ entering_number entered) × (placed.place ≡ entering_place entered) };

    fn from(entered: Result<Entered, Refusal>) -> Placed {
        match entered {
            Ok(Entered::New(place)) => Placed { number: 0, place },
            Ok(Entered::Held(place)) => Placed { number: 101, place },
            Err(refusal) => refusal.into(),
        }
    }
}

// What strike answers: the place that the entry had.
impl From<Result<u32, Refusal>> for Placed {
    ghost from_gives = { λ struck placed. (placed.number ≡ asked_number struck) × (placed.place ≡ striking_place struck) };

    fn from(struck: Result<u32, Refusal>) -> Placed {
        match struck {
            Ok(place) => Placed { number: 0, place },
            Err(refusal) => refusal.into(),
        }
    }
}
