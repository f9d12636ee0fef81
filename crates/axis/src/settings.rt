//! I, V, K and D, each in its range.

ghost use Rattle.std.specs.Prelude.{◌≡◌};
ghost use Rattle.machine.specs.Setups.{start_speed};

use std::marker::Model;

/// What an index begins with.
#[derive(Clone, Copy, Debug, PartialEq, Eq)]
pub struct Settings {
    /// `I`: the speed at which an index starts, if `slew` is not below it.
    pub(crate) initial: u16,
    /// `V`: the speed that an index does not pass.
    pub(crate) slew: u16,
    /// `K`: the speed gained per step.
    pub(crate) gain: u8,
    /// `K`: the speed lost per step.
    pub(crate) loss: u8,
    /// `D`: what every speed is divided by.
    pub(crate) divisor: u8,
}

impl Model for Settings {
    ghost use Rattle.machine.specs.Setups.{Setup};

    ghost Value = { Setup };

    ghost use Rattle.axis.specs.Settings.{InRange};

    ghost view = { λ s. record { initial = s.initial; slew = s.slew; gain = s.gain; loss = s.loss; divisor = s.divisor } };

    ghost invariant = { InRange };

    ghost inverse = { λ u. record { initial = u.initial; slew = u.slew; gain = u.gain; loss = u.loss; divisor = u.divisor } };
}

impl Settings {
    /// The lesser of I and V.
    pub(crate) fn start_speed(self) -> u16
        ensures { result ≡ start_speed self }
    {
        self.initial.min(self.slew)
    }
}
