//! A direction level and a step level that toggles.

ghost use Rattle.std.specs.Prelude.{◌≡◌};
ghost use Rattle.port.specs.Steps.{none, counted, without_limit};
ghost use Rattle.port.specs.Pulses.{direction_level, level_for, step_level, Toggles};

use crate::step::{Counts, StepPort};
use isa::{Direction, Refusal};

/// A port for a drive that takes a direction and pulses. It has no limit.
#[derive(Debug, Default, Drop)]
pub struct PulsePort {
    counts: Counts,
    /// The direction of the last step.
    last: Option<Direction>,
}

impl PulsePort {
    /// No step taken, both levels 0.
    pub fn new() -> PulsePort
        ensures counts { result.counts ≡ none }
        ensures level { direction_level result ≡ 0 }
    {
        PulsePort::default()
    }

    /// One pulse: the direction level is that of the step, and the step level toggles.
    pub fn pulse(&mut self, direction: Direction)
        ensures counts { self.new.counts ≡ counted direction self.old.counts }
        ensures level { direction_level self.new ≡ level_for direction }
    {
        self.counts = self.counts.with(direction);
        self.last = Some(direction);
    }

    /// 1 after a step plus, 0 after a step minus and at first.
    pub fn direction_level(&self) -> u8
        ensures { result ≡ direction_level self.now }
    {
        u8::from(self.last == Some(Direction::Plus))
    }

    /// Toggles with each step, 0 at first.
    pub fn step_level(&self) -> u8
        ensures value { result ≡ step_level self.now.counts }
        ensures law { Toggles self.now.counts }
    {
        u8::from(self.counts.plus.wrapping_add(self.counts.minus) % 2 == 1)
    }
}

impl StepPort for PulsePort {
    ghost meaning = { λ p. without_limit p.counts };

    fn step(&mut self, direction: Direction) -> Result<(), Refusal> {
        self.pulse(direction);
        Ok(())
    }

    fn counts(&self) -> Counts {
        self.counts
    }
}
