//! The walk over an image, instruction by instruction.

ghost use Rattle.std.specs.Prelude.{◌≡◌, ◌≤◌, length};
ghost use Rattle.isa.specs.Codes.{padded, decoded};
ghost use Rattle.isa.specs.Laws.{Decodes};

use isa::{IMAGE_SIZE, Instruction, MARK, Refusal, decode, is_user_place, shape_of};
use sequence::{Found, ImageFault};

/// The instructions of an image in their order; a fault is the last item.
#[derive(Drop)]
pub(crate) struct Walk<'a> {
    /// The bytes that are left.
    rest: &'a [u8],
    /// Whether a stretch is open.
    inside: bool,
    ghost within: { length rest.now ≤ 2048 },
}

impl<'a> Walk<'a> {
    ghost use Rattle.std.specs.Prelude.{◌≡◌, ◌<◌, false, length};
    ghost use Rattle.sequence.specs.Images.{walk};
    ghost use Rattle.lister.specs.Walks.{reached, left, Passed, Reads, Steps};

    pub(crate) fn new(image: &'a [u8; IMAGE_SIZE]) -> Walk<'a>
        ensures { left result ≡ walk 0 false 0 image.now }
    {
        Walk {
            rest: image,
            inside: false,
        }
    }

    /// The place of the first byte that is left.
    fn place(&self) -> u16
        ensures { result ≡ reached self.now }
    {
        // Stays: a cast, here and in `read`; a place is at most 2,048, a width at most four.
        (IMAGE_SIZE - self.rest.len()) as u16
    }

    /// The next instruction, or `None` at the end of the image; a refusal is of the place reached.
    fn step(&mut self) -> Result<Option<Found>, Refusal>
        ensures { Steps result self.old self.new }
    {
        self.skip_marks()?;
        if self.rest.is_empty() {
            return if self.inside {
                Err(Refusal::Area)
            } else {
                Ok(None)
            };
        }
        let place = self.place();
        let opens = !self.inside;
        let instruction = self.read()?;
        self.inside = true;
        Ok(Some(Found {
            place,
            instruction,
            opens,
        }))
    }

    /// Passes the marks in front; one that ends a stretch stands in a user place.
    fn skip_marks(&mut self) -> Result<(), Refusal>
        ensures { Passed result self.old self.new }
    {
        while let [MARK, rest @ ..] = self.rest {
            if self.inside && !is_user_place(self.place()) {
                return Err(Refusal::Area);
            }
            self.rest = rest;
            self.inside = false;
        }
        Ok(())
    }

    /// Reads the instruction in front and passes it.
    fn read(&mut self) -> Result<Instruction<u16>, Refusal>
        requires { 0 < length self.old.rest.now }
        ensures { Reads result self.old self.new }
    {
        let place = self.place();
        if !is_user_place(place) {
            return Err(Refusal::Area);
        }
        let shape = shape_of(char::from(self.rest[0])).ok_or(Refusal::Code)?;
        let width = shape.width();
        if !is_user_place(place + (width - 1) as u16) {
            return Err(Refusal::Area);
        }
        let (code, rest) = self.rest.split_at(width);
        let instruction = decode_bytes(code)?;
        self.rest = rest;
        Ok(instruction)
    }
}

impl Iterator for Walk<'_> {
    ghost use Rattle.std.specs.Iterator.{at_most};
    ghost use Rattle.lister.specs.Walks.{turns, Gives};

    type Item = Result<Found, ImageFault>;

    ghost next_gives = { Gives };

    ghost remaining = { λ w. at_most (turns w) };

    fn next(&mut self) -> Option<Result<Found, ImageFault>> {
        match self.step() {
            Ok(found) => found.map(Ok),
            Err(refusal) => {
                let fault = ImageFault::new(refusal, self.place());
                *self = Walk {
                    rest: &[],
                    inside: false,
                };
                Some(Err(fault))
            }
        }
    }
}

/// The instruction that these bytes are, 0 standing for those past their end.
fn decode_bytes(code: &[u8]) -> Result<Instruction<u16>, Refusal>
    requires { length code.now ≤ 4 }
    ensures value { result ≡ decoded code.now }
    ensures law { Decodes (padded code.now) result }
{
    let mut bytes = [0; 4];
    bytes[..code.len()].copy_from_slice(code);
    decode(bytes)
}
