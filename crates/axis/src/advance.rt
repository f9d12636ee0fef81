//! The motion part of a tick.

ghost use Rattle.std.specs.Prelude.{◌≡◌};
ghost use Rattle.isa.specs.TwosComplement.{half24};
ghost use Rattle.machine.specs.Bodies.{shifted, limit_on, motion_part};
ghost use Rattle.std.specs.Result.{result_err};

use crate::body::Body;
use crate::motion::Motion;
use isa::{Direction, Refusal};
use port::StepPort;

const HIGHEST: i32 = 8_388_607;

const LOWEST: i32 = -8_388_608;

/// The bits of a tick's input by which the limits are on.
const PLUS_LIMIT: u8 = 0b1000_0000;

const MINUS_LIMIT: u8 = 0b0100_0000;

/// A position moved by one, within 24 bits.
fn shift(direction: Direction, position: i32) -> i32
    ensures { result ≡ shifted half24 direction position }
{
    match direction {
        Direction::Plus if position >= HIGHEST => LOWEST,
        Direction::Plus => position + 1,
        Direction::Minus if position <= LOWEST => HIGHEST,
        Direction::Minus => position - 1,
    }
}

/// Whether the limit of a direction is on.
fn limit_on(input: u8, direction: Direction) -> bool
    ensures { result ≡ limit_on input direction }
{
    let limit = match direction {
        Direction::Plus => PLUS_LIMIT,
        Direction::Minus => MINUS_LIMIT,
    };
    input & limit != 0
}

impl Body {
    /// The motion part of a tick; refused where a limit or the port ended the motion, and with it any run.
    pub(crate) fn advance<P: StepPort>(&mut self, port: &mut P, input: u8) -> Result<(), Refusal>
        ensures ends { result_err result ≡ (motion_part input self.old (P.meaning port.old)).ends }
        ensures body { self.new ≡ (motion_part input self.old (P.meaning port.old)).body }
        ensures port { P.meaning port.new ≡ (motion_part input self.old (P.meaning port.old)).port }
    {
        // A limit, or a refusal of the port, leaves nothing that moves.
        let Some(motion) = self.motion.take() else {
            return Ok(());
        };
        if limit_on(input, motion.direction) {
            return Err(Refusal::Limit);
        }
        let sum = motion.sum + u32::from(motion.speed);
        let due = motion.due();
        if sum < due {
            self.motion = Some(Motion { sum, ..motion });
            return Ok(());
        }
        port.step(motion.direction)?;
        self.position = shift(motion.direction, self.position);
        self.motion = motion.after_step(sum - due);
        Ok(())
    }
}
