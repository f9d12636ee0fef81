//! Instructions.

ghost use Rattle.std.specs.Prelude.{◌≡◌};
ghost use Rattle.isa.specs.Instructions.{letter_of, operands_of, target_of, retarget};

use crate::shape::Operands;

#[derive(Clone, Copy, Debug, PartialEq, Eq)]
pub enum Direction {
    Plus,
    Minus,
}

/// What an instruction without a target does.
#[derive(Clone, Copy, Debug, PartialEq, Eq)]
pub enum Action {
    /// `A`: the outputs become these six bits.
    Outputs(u8),
    /// `D`: the divisor of every speed.
    Divisor(u8),
    /// `I`: the speed at which an index starts.
    InitialSpeed(u16),
    /// `V`: the speed that an index does not pass.
    SlewSpeed(u16),
    /// `K`: the speed gained and lost per step.
    Rates { gain: u8, loss: u8 },
    /// `O`: the position is from now on called this.
    Origin(i32),
    /// `R`: index to this position.
    IndexTo(i32),
    /// `W`: once nothing moves, wait this many hundredths of a second.
    Wait(u16),
    /// `Z`: answer the position.
    Report,
    /// `+` and `-`: index by this many steps.
    Index { direction: Direction, steps: u32 },
}

/// An instruction over its kind of target: a place in an image, a place or a label in a text.
#[derive(Clone, Copy, Debug, PartialEq, Eq)]
pub enum Instruction<T> {
    /// `G`: go on at the target.
    Go(T),
    /// `J`: jump so many times and once more, then go on.
    Jump { target: T, times: u8 },
    /// `L`: jump while this port reads low.
    JumpLow { target: T, port: u8 },
    Act(Action),
}

impl<T: Copy> Instruction<T> {
    /// The ASCII code of the command letter, whatever the target is.
    pub fn command_letter(self) -> u8
        ensures { result ≡ letter_of self }
    {
        match self {
            Instruction::Go(_) => b'G',
            Instruction::Jump { .. } => b'J',
            Instruction::JumpLow { .. } => b'L',
            Instruction::Act(action) => match action {
                Action::Outputs(_) => b'A',
                Action::Divisor(_) => b'D',
                Action::InitialSpeed(_) => b'I',
                Action::SlewSpeed(_) => b'V',
                Action::Rates { .. } => b'K',
                Action::Origin(_) => b'O',
                Action::IndexTo(_) => b'R',
                Action::Wait(_) => b'W',
                Action::Report => b'Z',
                Action::Index {
                    direction: Direction::Plus,
                    ..
                } => b'+',
                Action::Index {
                    direction: Direction::Minus,
                    ..
                } => b'-',
            },
        }
    }

    /// The target, of whatever kind it is.
    pub fn own_target(self) -> Option<T>
        ensures { result ≡ target_of self }
    {
        match self {
            Instruction::Go(target) => Some(target),
            Instruction::Jump { target, .. } => Some(target),
            Instruction::JumpLow { target, .. } => Some(target),
            Instruction::Act(_) => None,
        }
    }

    /// The same instruction with this target in place of its own, if it has one.
    pub fn with_target<U: Copy>(self, target: U) -> Instruction<U>
        ensures { result ≡ retarget (λ _. target) self }
    {
        match self {
            Instruction::Go(_) => Instruction::Go(target),
            Instruction::Jump { times, .. } => Instruction::Jump { target, times },
            Instruction::JumpLow { port, .. } => Instruction::JumpLow { target, port },
            Instruction::Act(action) => Instruction::Act(action),
        }
    }
}

impl Instruction<u16> {
    /// The ASCII code of the command letter, the first byte of the instruction.
    pub fn letter(self) -> u8
        ensures { result ≡ letter_of self }
    {
        self.command_letter()
    }

    /// Where the instruction may go on to, besides the one after it.
    pub fn target(self) -> Option<u16>
        ensures { result ≡ target_of self }
    {
        self.own_target()
    }

    /// The operands as numbers; 0 stands for one that the letter does not have.
    pub fn operands(self) -> Operands
        ensures { result ≡ operands_of self }
    {
        let (first, second) = match self {
            Instruction::Go(target) => (i64::from(target), 0),
            Instruction::Jump { target, times } => (i64::from(target), i64::from(times)),
            Instruction::JumpLow { target, port } => (i64::from(target), i64::from(port)),
            Instruction::Act(action) => match action {
                Action::Outputs(n) | Action::Divisor(n) => (i64::from(n), 0),
                Action::InitialSpeed(n) | Action::SlewSpeed(n) | Action::Wait(n) => (
                    i64::from(n),
                    0,
                ),
                Action::Rates { gain, loss } => (i64::from(gain), i64::from(loss)),
                // Stays: two arms; one pattern for both is refused where the others bind an unsigned number.
                Action::Origin(n) => (i64::from(n), 0),
                Action::IndexTo(n) => (i64::from(n), 0),
                Action::Report => (0, 0),
                Action::Index { steps, .. } => (i64::from(steps), 0),
            },
        };
        Operands { first, second }
    }
}
