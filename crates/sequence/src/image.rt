//! What is found in an image.

ghost use Rattle.std.specs.Prelude.{◌≡◌};
ghost use Rattle.sequence.specs.Images.{image_fault};

use isa::{Instruction, Refusal};

// Stays: place 0 and no Option for `Size`; the definitions and every answer have the 0, and who reads the field needs no case.
/// Why an image is not listed, and at which place; place 0 for `Size`.
#[derive(Clone, Copy, Debug, PartialEq, Eq)]
pub struct ImageFault {
    pub refusal: Refusal,
    pub place: u16,
}

impl ImageFault {
    /// A refusal at a place.
    pub fn new(refusal: Refusal, place: u16) -> ImageFault
        ensures { result ≡ image_fault refusal place }
    {
        ImageFault { refusal, place }
    }
}

/// An instruction at its place.
#[derive(Clone, Copy, Debug, PartialEq, Eq)]
pub struct Found {
    pub place: u16,
    pub instruction: Instruction<u16>,
    /// Whether it is the first of its stretch.
    pub opens: bool,
}
