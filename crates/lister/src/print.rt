//! The listing, written into the caller's buffer.

ghost use Rattle.std.specs.Prelude.{◌≡◌, ◌≤◌, true, false, length, is_ok, Ok};
ghost use Rattle.std.proofs.lemmas.List.Edits.{sets};
ghost use Rattle.isa.specs.Instructions.{letter_of};
ghost use Rattle.isa.specs.Table.{shape_of};
ghost use Rattle.sequence.specs.Images.{walk};
ghost use Rattle.sequence.specs.Listings.{count, printed};
ghost use Rattle.lister.specs.Walks.{found_in};

use crate::walk::Walk;
use isa::{IMAGE_SIZE, Instruction, Operands, shape_of};
use itoa::{Buffer, Integer};
use sequence::{Found, ImageFault};

// Stays: the buffer is lent by the caller, so the text's length stands beside it.
/// A text in front of the buffer that it is written into.
#[derive(Drop)]
struct Listing<'a> {
    out: &'a mut [u8],
    len: usize,
}

impl<'a> Listing<'a> {
    ghost use Rattle.std.specs.Prelude.{◌≡◌, ◌<◌, true, unsigned_abs, All};
    ghost use Rattle.isa.specs.Codes.{in_range};
    ghost use Rattle.sequence.specs.Listings.{instruction_text, at_line, opening, found_text};
    ghost use Rattle.sequence.specs.Numbers.{signed};
    ghost use Rattle.lister.specs.Writes.{HasRoom, Appends, spaced};

    /// Writes these bytes.
    fn push(&mut self, text: &[u8])
        requires { HasRoom text.now self.old }
        ensures { Appends text.now self.old self.new }
    {
        let end = self.len + text.len();
        self.out[self.len..end].copy_from_slice(text);
        self.len = end;
    }

    /// Writes a number.
    fn push_number<I: Integer>(&mut self, n: I)
        requires { HasRoom (I.text n) self.old }
        ensures { Appends (I.text n) self.old self.new }
    {
        self.push(Buffer::new().format(n).as_bytes());
    }

    /// Writes operands, each after a space.
    fn push_operands(&mut self, operands: &[i64])
        requires short { All (λ z. unsigned_abs z < 100000000) operands.now }
        requires room { HasRoom (spaced operands.now) self.old }
        ensures { Appends (spaced operands.now) self.old self.new }
    {
        for operand in operands {
            self.push(b" ");
            self.push_number(*operand);
        }
    }

    // Stays: the range is a clause, here and at `push_found`; an instruction is plain data of the definitions, without it, and
    // what a walk gives has it once.
    /// Writes letter and operands.
    fn push_instruction(&mut self, instruction: Instruction<u16>)
        requires range { in_range instruction ≡ true }
        requires room { HasRoom (instruction_text instruction) self.old }
        ensures { Appends (instruction_text instruction) self.old self.new }
    {
        self.push(&[instruction.letter()]);
        let Operands { first, second } = instruction.operands();
        self.push_operands(&[first, second][..operand_count(instruction)]);
    }

    /// Writes the line that opens a stretch.
    fn push_at_line(&mut self, place: u16)
        requires { HasRoom (at_line place) self.old }
        ensures { Appends (at_line place) self.old self.new }
    {
        self.push(b"at ");
        self.push_number(place);
        self.push(b"\n");
    }

    /// Writes the line that opens a stretch, if this instruction is its first.
    fn push_opening(&mut self, found: Found)
        requires { HasRoom (opening found) self.old }
        ensures { Appends (opening found) self.old self.new }
    {
        if found.opens {
            self.push_at_line(found.place);
        }
    }

    /// Writes what the listing says of one instruction.
    fn push_found(&mut self, found: Found)
        requires range { in_range found.instruction ≡ true }
        requires room { HasRoom (found_text found) self.old }
        ensures { Appends (found_text found) self.old self.new }
    {
        self.push_opening(found);
        self.push_number(found.place);
        self.push(b" ");
        self.push_instruction(found.instruction);
        self.push(b"\n");
    }
}

/// How many operands an instruction's letter takes.
fn operand_count(instruction: Instruction<u16>) -> usize
    ensures { result ≡ count (shape_of (letter_of instruction)) }
{
    shape_of(char::from(instruction.letter())).map_or(0, |shape| shape.operand_count())
}

/// Writes the listing of an image in front of `out`.
pub(crate) fn print(image: &[u8; IMAGE_SIZE], out: &mut [u8]) -> Result<usize, ImageFault>
    requires accepted { is_ok (walk 0 false 0 image.now) ≡ true }
    requires room { length (printed (found_in (walk 0 false 0 image.now))) ≤ length out.old }
    ensures answer { result ≡ Ok (length (printed (found_in (walk 0 false 0 image.now)))) }
    ensures output { out.new ≡ sets out.old 0 (printed (found_in (walk 0 false 0 image.now))) }
{
    let mut listing = Listing { out, len: 0 };
    for found in Walk::new(image) {
        listing.push_found(found?);
    }
    Ok(listing.len)
}
