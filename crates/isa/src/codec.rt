//! Instructions to bytes and back.

ghost use Rattle.std.specs.Prelude.{◌≡◌, ◌/◌, ◌%◌, true, [], ◌∷◌, slice_index};
ghost use Rattle.isa.specs.Instructions.{letter_of};
ghost use Rattle.isa.specs.Codes.{encoded, padded, in_range, encoding, decoded};
ghost use Rattle.isa.specs.Laws.{Encodes, Decodes};

use crate::instruction::{Action, Instruction};
use crate::refusal::Refusal;
use crate::table::{Mismatch, look_up, shape_of};

/// The byte that ends a stretch, and that stands wherever no instruction does. No letter has this code.
pub const MARK: u8 = 255;

// Stays: an array and a count; an `ArrayVec` is not `Copy`, and a code is, with 0 behind its bytes.
/// The bytes of an instruction: the first `len` of `bytes`, and 0 after them.
#[derive(Clone, Copy, Debug, PartialEq, Eq)]
pub struct Code {
    pub bytes: [u8; 4],
    pub len: usize,
}

/// The bytes of an instruction; refused with `Range` if an operand is outside its range.
pub fn encode(instruction: Instruction<u16>) -> Result<Code, Refusal>
    ensures value { result ≡ encoding instruction }
    ensures law { Encodes instruction result }
{
    let letter = instruction.letter();
    let entry = look_up(char::from(letter), instruction.operands()).map_err(|_| Refusal::Range)?;
    let [first, second, third] = operand_bytes(instruction);
    Ok(Code {
        bytes: [letter, first, second, third],
        len: entry.shape.width(),
    })
}

/// The instruction in front of four bytes; refused with `Code` if the first is no letter, with `Range` if an operand
/// is outside its range. Bytes past the instruction do not count.
pub fn decode(bytes: [u8; 4]) -> Result<Instruction<u16>, Refusal>
    ensures value { result ≡ decoded bytes }
    ensures law { Decodes bytes result }
{
    let [letter, low, middle, high] = bytes;
    decode_parts(letter, low, middle, high)
}

fn decode_parts(letter: u8, low: u8, middle: u8, high: u8) -> Result<Instruction<u16>, Refusal>
    ensures value { result ≡ decoded (letter ∷ low ∷ middle ∷ high ∷ []) }
    ensures law { Decodes (letter ∷ low ∷ middle ∷ high ∷ []) result }
{
    let shape = shape_of(char::from(letter)).ok_or(Refusal::Code)?;
    match look_up(char::from(letter), shape.operands_in([low, middle, high])) {
        Ok(entry) => Ok(entry.instruction),
        Err(Mismatch::OutOfRange(_, _)) => Err(Refusal::Range),
        Err(Mismatch::UnknownLetter) => Err(Refusal::Code),
    }
}

// Stays: the range is a clause; the instruction is a caller's plain data, and the table has just been asked.
/// The bytes after the letter of an instruction whose operands are in range, and 0 after them.
fn operand_bytes(instruction: Instruction<u16>) -> [u8; 3]
    requires { in_range instruction ≡ true }
    ensures { letter_of instruction ∷ result ≡ padded (encoded instruction) }
{
    match instruction {
        Instruction::Go(target) => word(target, 0),
        Instruction::Jump { target, times } => word(target, times),
        Instruction::JumpLow { target, port } => word(target, port),
        Instruction::Act(action) => match action {
            Action::Outputs(n) | Action::Divisor(n) => [n, 0, 0],
            Action::InitialSpeed(n) | Action::SlewSpeed(n) | Action::Wait(n) => word(n, 0),
            Action::Rates { gain, loss } => [gain, loss, 0],
            // Stays: two arms; one pattern for both is refused where the others bind an unsigned number.
            Action::Origin(n) => long(n.to_le_bytes()),
            Action::IndexTo(n) => long(n.to_le_bytes()),
            Action::Report => [0; 3],
            Action::Index { steps, .. } => long(steps.to_le_bytes()),
        },
    }
}

/// Two bytes, low byte first, and one more.
fn word(n: u16, last: u8) -> [u8; 3]
    ensures { result ≡ n % 256 ∷ n / 256 ∷ last ∷ [] }
{
    let [low, high] = n.to_le_bytes();
    [low, high, last]
}

/// Four bytes without the highest.
fn long(bytes: [u8; 4]) -> [u8; 3]
    ensures { result ≡ slice_index bytes 0 ∷ slice_index bytes 1 ∷ slice_index bytes 2 ∷ [] }
{
    let [low, middle, high, _] = bytes;
    [low, middle, high]
}
