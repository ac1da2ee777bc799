// What the calls ask first, and why one is refused.
#![tactic(auto)]

ghost use Rattle.std.specs.Prelude.{◌≡◌};
ghost use Rattle.refusals.specs.Numbers.{refusal_number};

// Why a call is refused: the question that got a no, by its number.
#[derive(Clone, Copy, Debug, PartialEq, Eq)]
pub enum Refusal {
    Rows = 1,
    Columns = 2,
    Top = 3,
    Capacity = 4,
    Layout = 5,
    Length = 6,
    Cell = 7,
    Bounds = 8,
    Full = 9,
    NotHeld = 10,
    TerminalRows = 14,
    Client = 15,
    Holding = 16,
}

impl From<Refusal> for u32 {
    ghost from_gives = { λ refusal number. number ≡ refusal_number refusal };

    fn from(refusal: Refusal) -> u32 {
        refusal as u32
    }
}
