//! Faults and labels as programs write them.

ghost use Rattle.std.specs.Prelude.{Some};
ghost use Rattle.sequence.specs.Words.{image_line, text_line, letters, label_text};

use crate::{ImageFault, Label, TextFault};
use std::error::Error;
use std::fmt;

/// The line by which a program answers an image that it refuses: `?`, two digits, a space and the place.
impl fmt::Display for ImageFault {
    ghost output = { λ fault. Some (image_line fault) };

    fn fmt<W: fmt::Write>(&self, f: &mut fmt::Formatter<W>) -> fmt::Result {
        write!(f, "?{:02} {}", self.refusal.number(), self.place)
    }
}

impl Error for ImageFault {}

/// The same for a text: `?`, two digits, a space, the line, a space and the column.
impl fmt::Display for TextFault {
    ghost output = { λ fault. Some (text_line fault) };

    fn fmt<W: fmt::Write>(&self, f: &mut fmt::Formatter<W>) -> fmt::Result {
        let TextFault {
            refusal,
            line,
            column,
        } = *self;
        write!(f, "?{:02} {line} {column}", refusal.number())
    }
}

impl Error for TextFault {}

/// A name as records hold it, written by its letters alone.
#[derive(Clone, Copy, Debug, PartialEq, Eq)]
pub struct Name(pub [u8; 8]);

impl fmt::Display for Name {
    ghost output = { λ name. Some (letters name.0) };

    fn fmt<W: fmt::Write>(&self, f: &mut fmt::Formatter<W>) -> fmt::Result {
        for letter in self.0 {
            if letter != 0 {
                f.write_char(char::from(letter))?;
            }
        }
        Ok(())
    }
}

/// The name, a colon, and the line and the place in words.
impl fmt::Display for Label {
    ghost output = { λ label. Some (label_text label) };

    fn fmt<W: fmt::Write>(&self, f: &mut fmt::Formatter<W>) -> fmt::Result {
        let Label { name, line, place } = *self;
        write!(f, "{}: line {line}, place {place}", Name(name))
    }
}
