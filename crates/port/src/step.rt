//! What every step port promises.

ghost use Rattle.std.specs.Prelude.{◌≡◌, OnErr};
ghost use Rattle.port.specs.Steps.{Meaning, counted, answered, stepped};

use isa::{Direction, Refusal};

/// The steps taken each way, modulo 4,294,967,296.
#[derive(Clone, Copy, Debug, Default, PartialEq, Eq)]
pub struct Counts {
    pub plus: u32,
    pub minus: u32,
}

impl Counts {
    /// One step more in a direction.
    pub fn with(self, direction: Direction) -> Counts
        ensures { result ≡ counted direction self }
    {
        match direction {
            Direction::Plus => Counts {
                plus: self.plus.wrapping_add(1),
                ..self
            },
            Direction::Minus => Counts {
                minus: self.minus.wrapping_add(1),
                ..self
            },
        }
    }
}

/// A device that steps a motor. What it means is its counts and its room.
pub trait StepPort {
    ghost meaning: { Self → Meaning };

    /// Takes a step. Refused with `Full`, and with nothing changed, where there is no room for it.
    fn step(&mut self, direction: Direction) -> Result<(), Refusal>
        ensures answer { result ≡ answered (meaning self.old).room }
        ensures after { meaning self.new ≡ stepped direction (meaning self.old) }
        ensures kept { OnErr result (self.new ≡ self.old) };

    /// The steps taken so far.
    fn counts(&self) -> Counts
        ensures { result ≡ (meaning self.now).counts };
}
