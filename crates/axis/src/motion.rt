//! An index on its way, and what a step does to it.

ghost use Rattle.std.specs.Prelude.{◌≡◌, ◌-◌, ◌<◌, ◌≤◌};
ghost use Rattle.machine.specs.Setups.{start_speed};
ghost use Rattle.machine.specs.Motions.{begun, due, next_speed, after_step, slowing};

use crate::settings::Settings;
use isa::Direction;
use std::marker::Model;

/// The sum at which a step is due, for divisor 1.
const FULL_SPEED: u32 = 25_000;

/// A motion. It keeps the settings that it began with.
#[derive(Clone, Copy, Debug, PartialEq, Eq)]
pub(crate) struct Motion {
    pub(crate) direction: Direction,
    /// Steps to go.
    pub(crate) left: u32,
    pub(crate) speed: u16,
    pub(crate) settings: Settings,
    /// The sum of the speeds since the last step.
    pub(crate) sum: u32,
    /// By the soft stop.
    pub(crate) slowed: bool,
}

impl Model for Motion {
    ghost use Rattle.machine.specs.Motions.{Motion as State};

    ghost Value = { State };

    ghost use Rattle.axis.specs.Motion.{OnItsWay};

    ghost view = { λ m. record { direction = m.direction; left = m.left; speed = m.speed; setup = m.settings; sum = m.sum; slowed = m.slowed } };

    ghost invariant = { OnItsWay };

    ghost inverse = { λ m. record { direction = m.direction; left = m.left; speed = m.speed; settings = m.setup; sum = m.sum; slowed = m.slowed } };
}

impl Motion {
    /// An index of so many steps, as it begins from stillness.
    pub(crate) fn begin(direction: Direction, steps: u32, settings: Settings) -> Option<Motion>
        requires { steps < 16777216 }
        ensures { result ≡ begun direction steps settings }
    {
        if steps == 0 {
            return None;
        }
        Some(Motion {
            direction,
            left: steps,
            speed: settings.start_speed(),
            settings,
            sum: 0,
            slowed: false,
        })
    }

    /// The sum at which a step is due.
    pub(crate) fn due(self) -> u32
        ensures { result ≡ due self }
    {
        FULL_SPEED * u32::from(self.settings.divisor)
    }

    /// The motion under the soft stop.
    pub(crate) fn slow_down(self) -> Motion
        ensures { result ≡ slowing self }
    {
        Motion {
            slowed: true,
            ..self
        }
    }

    /// The motion after a step, with what is left of its sum. The last step ends it; slowed, it ends below the start.
    pub(crate) fn after_step(self, sum: u32) -> Option<Motion>
        requires { sum < due self }
        ensures { result ≡ after_step sum self }
    {
        if self.left == 1 {
            return None;
        }
        let loss = u16::from(self.settings.loss);
        let speed = if !self.slowed {
            self.next_speed()
        } else if self.speed < self.settings.start_speed() + loss {
            return None;
        } else {
            self.speed - loss
        };
        Some(Motion {
            left: self.left - 1,
            speed,
            sum,
            ..self
        })
    }

    /// The speed after a step that is not the last: it falls where the rest of the way is just enough to come down to the
    /// start, and else rises.
    fn next_speed(self) -> u16
        requires { 1 < self.left }
        ensures value { result ≡ next_speed (self.left - 1) self }
        ensures slow { start_speed self.setup ≤ result }
        ensures fast { result ≤ self.setup.slew }
    {
        let Settings {
            slew,
            gain,
            loss,
            ..
        } = self.settings;
        let above = self.speed - self.settings.start_speed();
        if u32::from(loss) * (self.left - 1) <= u32::from(above) {
            self.speed - u16::from(loss)
        } else {
            slew.min(self.speed + u16::from(gain))
        }
    }
}
