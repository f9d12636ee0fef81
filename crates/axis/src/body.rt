//! What an axis is apart from its runs, its messages, its store and its port.

ghost use Rattle.std.specs.Prelude.{◌≡◌, ◌<◌, ◌≤◌, true, is_some};
ghost use Rattle.isa.specs.Codes.{in_range};
ghost use Rattle.isa.specs.declared.instruction.Instruction.TheVariants.{Act};
ghost use Rattle.machine.specs.Effects.{carried_out, indexed, is_low, toward};
ghost use Rattle.axis.specs.Models.{answered};

use crate::motion::Motion;
use crate::settings::Settings;
use isa::{Action, Direction, Refusal};
use machine::Answer;
use std::marker::Model;

/// The body of an axis; its position is a number of 24 bits.
#[derive(Drop)]
pub(crate) struct Body {
    pub(crate) name: u8,
    pub(crate) settings: Settings,
    pub(crate) position: i32,
    pub(crate) outputs: u8,
    pub(crate) motion: Option<Motion>,
}

impl Model for Body {
    ghost use Rattle.std.specs.Prelude.{pos, negsuc, ◌≤ℤ◌};
    ghost use Rattle.machine.specs.Bodies.{Body as State};

    ghost Value = { State };

    ghost view = { λ b. record { name = b.name; setup = b.settings; position = b.position; outputs = b.outputs; moving = b.motion } };

    ghost invariant = { λ b. (negsuc 8388607 ≤ℤ b.position) × (b.position ≤ℤ pos 8388607) };
}

impl Body {
    pub(crate) fn is_moving(&self) -> bool
        ensures { result ≡ is_some self.now.moving }
    {
        self.motion.is_some()
    }

    /// Whether a port reads low, by its bit of the input or of the outputs.
    pub(crate) fn reads_low(&self, port: u8, input: u8) -> bool
        requires { (1 ≤ port) × (port ≤ 6) }
        ensures { result ≡ is_low port input self.now.outputs }
    {
        let bit = 1u8 << (port - 1);
        input & bit != 0 || self.outputs & bit != 0
    }

    /// An index of so many steps, unless something moves.
    fn index(&mut self, direction: Direction, steps: u32) -> Result<Answer, Refusal>
        requires { steps < 16777216 }
        ensures answer { result ≡ answered (indexed direction steps self.old) }
        ensures body { self.new ≡ (indexed direction steps self.old).body }
    {
        if self.is_moving() {
            return Err(Refusal::Busy);
        }
        self.motion = Motion::begin(direction, steps, self.settings);
        Ok(Answer::Silence)
    }

    // Stays: the range is a clause, here and of an instruction in a run; an action is plain data of its instruction.
    /// Carries an action out, or changes nothing where something moves that must not. A wait is a matter of the run that meets
    /// it.
    pub(crate) fn carry_out(&mut self, action: Action) -> Result<Answer, Refusal>
        requires { in_range (Act action) ≡ true }
        ensures answer { result ≡ answered (carried_out action self.old) }
        ensures body { self.new ≡ (carried_out action self.old).body }
    {
        match action {
            Action::Outputs(n) => self.outputs = n,
            Action::Divisor(n) => self.settings.divisor = n,
            Action::InitialSpeed(n) => self.settings.initial = n,
            Action::SlewSpeed(n) => self.settings.slew = n,
            Action::Rates { gain, loss } => {
                self.settings.gain = gain;
                self.settings.loss = loss;
            }
            Action::Origin(z) => self.position = z,
            Action::IndexTo(z) => {
                let steps = z.abs_diff(self.position);
                return self.index(direction_to(self.position, z), steps);
            }
            Action::Wait(_) => {}
            Action::Report => return Ok(Answer::Position(self.position)),
            Action::Index { direction, steps } => return self.index(direction, steps),
        }
        Ok(Answer::Silence)
    }
}

/// The direction in which a position lies.
fn direction_to(from: i32, to: i32) -> Direction
    ensures { result ≡ toward from to }
{
    if from <= to {
        Direction::Plus
    } else {
        Direction::Minus
    }
}
