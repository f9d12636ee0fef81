//! Reading an instruction out of a store, as a run does.

#![tactic(auto)]

ghost use Rattle.std.specs.Prelude.{◌≡◌, ◌+◌, ◌<◌, true};
ghost use Rattle.isa.specs.Places.{user};
ghost use Rattle.isa.specs.Table.{shape_of};
ghost use Rattle.machine.specs.Stores.{operand_byte, operands_at, shaped, fetched};

use isa::{Instruction, MARK, Refusal, decode, is_user_place, shape_of};
use machine::Fault;
use std::marker::Model;
use store::Store;

/// An instruction that was read, its operands in range, and the place after it.
#[derive(Clone, Copy, Debug, PartialEq, Eq)]
pub struct Reading {
    pub instruction: Instruction<u16>,
    pub after: u16,
}

impl Model for Reading {
    ghost use Rattle.std.specs.Prelude.{◌≡◌, ℕ, true};
    ghost use Rattle.isa.specs.Codes.{in_range};
    ghost use Rattle.machine.specs.States.{Reading as ReadingAt};

    ghost Value = { ReadingAt ℕ };

    ghost view = { λ r. record { instruction = r.instruction; after = r.after } };

    ghost invariant = { λ r. in_range r.instruction ≡ true };

    ghost inverse = { λ r. record { instruction = r.instruction; after = r.after } };
}

/// What stands at a place: an instruction, or the end mark and nothing more. Every byte is asked of the store, whose fault
/// goes up with its page.
#[tactic(auto, unfolding(machine::specs::Stores::fetched))]
pub fn fetch<S: Store>(store: &S, place: u16) -> Result<Option<Reading>, Fault>
    ensures { result ≡ fetched (S.memory store.now) place }
{
    if !is_user_place(place) {
        return Err(Refusal::Area.into());
    }
    let letter = store.read(place)?;
    if letter == MARK {
        return Ok(None);
    }
    read_lettered(store, place, letter)
}

// Stays: the steps by which the lister's walk reads, over a store that may refuse each byte; one function for both would take
// each byte from a closure that can fail.
/// The instruction that begins with this byte, all of it in user places.
fn read_lettered<S: Store>(store: &S, place: u16, letter: u8) -> Result<Option<Reading>, Fault>
    requires { user place ≡ true }
    ensures { result ≡ shaped (S.memory store.now) place letter (shape_of letter) }
{
    let shape = shape_of(char::from(letter)).ok_or(Refusal::Code)?;
    // Stays: a cast; a width is at most four, and `try_from` would hand out a refusal that never comes.
    let width = shape.width() as u16;
    if !is_user_place(place + (width - 1)) {
        return Err(Refusal::Area.into());
    }
    read_operands(store, place, letter, width)
}

/// The instruction of this letter and width.
fn read_operands<S: Store>(
    store: &S,
    place: u16,
    letter: u8,
    width: u16,
) -> Result<Option<Reading>, Fault>
    requires { (place < 2048) × (width < 5) }
    ensures { result ≡ operands_at (S.memory store.now) place letter width }
{
    // A byte after the letter, or 0 past the instruction's last.
    let operand = |index: u16| -> Result<u8, Fault>
        requires { (place < 2048) × (index < 4) }
        ensures { result ≡ operand_byte (S.memory store.entry.now) place width index }
    {
        if index >= width {
            return Ok(0);
        }
        Ok(store.read(place + index)?)
    };
    let instruction = decode([letter, operand(1)?, operand(2)?, operand(3)?])?;
    Ok(Some(Reading {
        instruction,
        after: place + width,
    }))
}
