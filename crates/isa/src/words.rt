//! Refusals in words.

ghost use Rattle.std.specs.Prelude.{◌≡◌, Some};
ghost use Rattle.isa.specs.Words.{sentence_of};

use crate::refusal::Refusal;
use std::error::Error;
use std::fmt;

impl Refusal {
    /// What to tell a person about a refusal.
    pub fn sentence(self) -> &'static str
        ensures { result.now ≡ sentence_of self }
    {
        match self {
            Refusal::Size =>
                "the size is wrong: an image has 2,048 bytes, a text at most 16,384 bytes, 2,048 lines and 64 labels",
            Refusal::Character =>
                "a byte that is not allowed: only printable ASCII and line feeds are",
            Refusal::Letter =>
                "no such command: the letters are A D G I J K L O R V W Z + and -, in upper case",
            Refusal::Long => "too long: a line has at most 80 bytes, a message 12",
            Refusal::Operands => "the parts of the line are wrong in number or form",
            Refusal::Range => "an operand is outside its range",
            Refusal::Stale =>
                "the written place is not where the line falls: correct it, the places after it and every target that has moved",
            Refusal::Area =>
                "outside the user places 0 to 192 and 256 to 2047, the mark that follows included, or no stretch was opened",
            Refusal::Label => "a label that is defined twice, or nowhere",
            Refusal::Target => "the target is not the first byte of an instruction",
            Refusal::Overlap => "another stretch has a byte or its mark here",
            Refusal::Busy => "busy: a run is going or the motor moves",
            Refusal::Absent => "the memory is absent: its size is wrong",
            Refusal::Spoilt => "the page cannot be read: load the image again",
            Refusal::Code => "the byte here is no command letter",
            Refusal::Full => "the step port takes no more steps",
            Refusal::Limit => "the limit switch of this direction is on",
        }
    }
}

/// The sentence.
impl fmt::Display for Refusal {
    ghost output = { λ refusal. Some (sentence_of refusal) };

    fn fmt<W: fmt::Write>(&self, f: &mut fmt::Formatter<W>) -> fmt::Result {
        f.write_str(self.sentence())
    }
}

impl Error for Refusal {}
