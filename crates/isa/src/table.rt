//! The table of commands: which letter there is, its shape, and the range of its operands.

ghost use Rattle.std.specs.Prelude.{◌≡◌, Ok, Err};
ghost use Rattle.isa.specs.declared.instruction.Instruction.TheVariants.{Act};
ghost use Rattle.isa.specs.Table.{within, fit, entry, shape_of};

use crate::instruction::{Action, Direction, Instruction};
use crate::shape::{Operands, Order, Shape};

/// What the table says of a letter and its operands: the instruction, and the shape of its operands.
#[derive(Clone, Copy, Debug, PartialEq, Eq)]
pub struct Entry {
    pub shape: Shape,
    pub instruction: Instruction<u16>,
}

/// Why the table has no instruction for a letter and its operands.
#[derive(Clone, Copy, Debug, PartialEq, Eq)]
pub enum Mismatch {
    /// No command has this letter.
    UnknownLetter,
    /// The letter takes operands of this shape, and this one is the first outside its range.
    OutOfRange(Shape, Order),
}

// Stays: casts; the guard in front of each row is the test, and `try_from` would add a refusal that cannot come.
/// Looks a letter up with its operands. No other code knows a letter's length or the range of an operand.
#[tactic(auto, using(crate::proofs::Rows::rows))]
pub fn look_up(letter: char, operands: Operands) -> Result<Entry, Mismatch>
    ensures { result ≡ entry letter operands }
{
    let Operands { first, second } = operands;
    match letter {
        'A' if !within(0, first, 63) => refuses(Shape::Byte, Order::First),
        'A' => act(Shape::Byte, Action::Outputs(first as u8)),
        'D' if !within(1, first, 255) => refuses(Shape::Byte, Order::First),
        'D' => act(Shape::Byte, Action::Divisor(first as u8)),
        'G' if !within(0, first, 2_047) => refuses(Shape::Target, Order::First),
        'G' => fits(Shape::Target, Instruction::Go(first as u16)),
        'I' if !within(19, first, 25_000) => refuses(Shape::Word, Order::First),
        'I' => act(Shape::Word, Action::InitialSpeed(first as u16)),
        'V' if !within(19, first, 25_000) => refuses(Shape::Word, Order::First),
        'V' => act(Shape::Word, Action::SlewSpeed(first as u16)),
        'J' if !within(0, first, 2_047) => refuses(Shape::TargetByte, Order::First),
        'J' if !within(0, second, 255) => refuses(Shape::TargetByte, Order::Second),
        'J' => fits(
            Shape::TargetByte,
            Instruction::Jump {
                target: first as u16,
                times: second as u8,
            },
        ),
        'K' if !within(1, first, 255) => refuses(Shape::Pair, Order::First),
        'K' if !within(1, second, 255) => refuses(Shape::Pair, Order::Second),
        'K' => act(
            Shape::Pair,
            Action::Rates {
                gain: first as u8,
                loss: second as u8,
            },
        ),
        'L' if !within(0, first, 2_047) => refuses(Shape::TargetByte, Order::First),
        'L' if !within(1, second, 6) => refuses(Shape::TargetByte, Order::Second),
        'L' => fits(
            Shape::TargetByte,
            Instruction::JumpLow {
                target: first as u16,
                port: second as u8,
            },
        ),
        'O' if !within(-8_388_607, first, 8_388_607) => refuses(Shape::Signed, Order::First),
        'O' => act(Shape::Signed, Action::Origin(first as i32)),
        'R' if !within(-8_388_607, first, 8_388_607) => refuses(Shape::Signed, Order::First),
        'R' => act(Shape::Signed, Action::IndexTo(first as i32)),
        'W' if !within(0, first, 65_535) => refuses(Shape::Word, Order::First),
        'W' => act(Shape::Word, Action::Wait(first as u16)),
        'Z' => act(Shape::Plain, Action::Report),
        '+' if !within(0, first, 16_777_215) => refuses(Shape::Long, Order::First),
        '+' => act(
            Shape::Long,
            Action::Index {
                direction: Direction::Plus,
                steps: first as u32,
            },
        ),
        '-' if !within(0, first, 16_777_215) => refuses(Shape::Long, Order::First),
        '-' => act(
            Shape::Long,
            Action::Index {
                direction: Direction::Minus,
                steps: first as u32,
            },
        ),
        _ => Err(Mismatch::UnknownLetter),
    }
}

fn act(shape: Shape, action: Action) -> Result<Entry, Mismatch>
    ensures { result ≡ Ok (fit shape (Act action)) }
{
    fits(shape, Instruction::Act(action))
}

fn fits(shape: Shape, instruction: Instruction<u16>) -> Result<Entry, Mismatch>
    ensures { result ≡ Ok (fit shape instruction) }
{
    Ok(Entry { shape, instruction })
}

fn refuses(shape: Shape, order: Order) -> Result<Entry, Mismatch>
    ensures { result ≡ Err (Mismatch.OutOfRange shape order) }
{
    Err(Mismatch::OutOfRange(shape, order))
}

fn within(low: i64, n: i64, high: i64) -> bool
    ensures { result ≡ within low n high }
{
    (low..=high).contains(&n)
}

/// The shape of a letter's operands, or `None` for no command.
pub fn shape_of(letter: char) -> Option<Shape>
    ensures { result ≡ shape_of letter }
{
    match look_up(letter, Operands::default()) {
        Ok(Entry { shape, .. }) | Err(Mismatch::OutOfRange(shape, _)) => Some(shape),
        Err(Mismatch::UnknownLetter) => None,
    }
}
