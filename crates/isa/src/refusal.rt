//! Why a call was refused.

ghost use Rattle.std.specs.Prelude.{◌≡◌};
ghost use Rattle.isa.specs.Refusals.{number_of};

/// The refusals of the first edition; `docs/refusals.md` says when each is given.
#[derive(Clone, Copy, Debug, PartialEq, Eq)]
pub enum Refusal {
    Size = 1,
    Character = 2,
    Letter = 3,
    Long = 4,
    Operands = 5,
    Range = 6,
    Stale = 7,
    Area = 8,
    Label = 9,
    Target = 10,
    Overlap = 11,
    Busy = 12,
    Absent = 13,
    Spoilt = 14,
    Code = 15,
    Full = 16,
    Limit = 17,
}

impl Refusal {
    /// The number under which a refusal is answered and documented.
    pub fn number(self) -> u8
        ensures { result ≡ number_of self }
    {
        // Stays: a cast; a number is read off an enum in no other way.
        self as u8
    }
}
