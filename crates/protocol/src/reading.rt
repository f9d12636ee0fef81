//! What the bytes of a message ask.

ghost use Rattle.std.specs.Prelude.{◌≡◌, ◌∷◌, IfOk};
ghost use Rattle.token.specs.Spots.{left, token_of};
ghost use Rattle.machine.specs.Messages.{message_of, worded, soft_stop, asked, asked_by};
ghost use Rattle.protocol.specs.Fits.{Fits};

use isa::{Instruction, Refusal};
use machine::Message;
use parser::{Front, first_bad, instruction};
use sequence::{Line, Target, TextFault};
use token::{Scanner, Spot};

/// What the bytes of a message ask. Its operands are then those of the table, and it is no wait.
#[tactic(auto, unfolding(machine::specs::Messages::message_of))]
pub fn read_message(bytes: &[u8]) -> Result<Message, Refusal>
    ensures value { result ≡ message_of bytes.now }
    ensures fits { IfOk result Fits }
{
    if first_bad(bytes).is_some() {
        return Err(Refusal::Character);
    }
    let mut scan = Scanner::new(0, bytes);
    let spot = scan.next().ok_or(Refusal::Operands)?;
    read_words(spot, scan)
}

/// The message's first token, and those after it. Nothing stands in front of its instruction.
fn read_words<'a>(spot: Spot<'a>, scan: Scanner<'a>) -> Result<Message, Refusal>
    ensures { result ≡ worded (token_of spot.entry ∷ left scan.entry) }
{
    let [letter, rest @ ..] = spot.text else {
        return Err(Refusal::Operands);
    };
    match letter {
        b'@' => soft_stop(rest, scan),
        b'J' | b'L' | b'W' => Err(Refusal::Letter),
        _ => asked_by(instruction(Front::default(), spot, scan)),
    }
}

/// `@` stands alone.
fn soft_stop<'a>(rest: &'a [u8], mut scan: Scanner<'a>) -> Result<Message, Refusal>
    ensures { result ≡ soft_stop rest.now (left scan.entry) }
{
    if !rest.is_empty() || scan.next().is_some() {
        return Err(Refusal::Operands);
    }
    Ok(Message::SoftStop)
}

fn asked_by(line: Result<Line, TextFault>) -> Result<Message, Refusal>
    ensures { result ≡ asked_by line }
{
    match line.map_err(|fault| fault.refusal)? {
        Line::Holds(source) => asked(source.instruction),
        Line::Blank | Line::Opens { .. } => Err(Refusal::Operands),
    }
}

/// The instruction, its target a number.
fn asked(instruction: Instruction<Target>) -> Result<Message, Refusal>
    ensures { result ≡ asked instruction }
{
    match instruction {
        Instruction::Go(Target::Place(place)) => Ok(Message::Go(place)),
        Instruction::Go(Target::Label(_)) => Err(Refusal::Operands),
        Instruction::Jump { .. } | Instruction::JumpLow { .. } => Err(Refusal::Letter),
        Instruction::Act(action) => Ok(Message::Act(action)),
    }
}
