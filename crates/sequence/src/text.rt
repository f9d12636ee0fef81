//! What the lines of a text say.

ghost use Rattle.std.specs.Prelude.{◌≡◌};
ghost use Rattle.sequence.specs.Lines.{text_fault};

use isa::{Instruction, Refusal};

// Stays: 0 and no Option where there is no line or column to name; the definitions and every answer have the 0.
/// Why a text is not translated: line and column, counted from 1, or 0 where there is none to name.
#[derive(Clone, Copy, Debug, PartialEq, Eq)]
pub struct TextFault {
    pub refusal: Refusal,
    pub line: usize,
    pub column: usize,
}

impl TextFault {
    /// A refusal at a line and a column.
    pub fn new(refusal: Refusal, line: usize, column: usize) -> TextFault
        ensures { result ≡ text_fault refusal line column }
    {
        TextFault {
            refusal,
            line,
            column,
        }
    }
}

// Stays: a name as eight bytes, not as text; the caller lends the table, and this is the format of its records.
/// A label as the caller's table has it: its name with 0 after the letters, its line, and the place of that line.
#[derive(Clone, Copy, Debug, Default, PartialEq, Eq)]
pub struct Label {
    pub name: [u8; 8],
    pub line: usize,
    pub place: u16,
}

/// Where a jump of a text goes to.
#[derive(Clone, Copy, Debug, PartialEq, Eq)]
pub enum Target {
    Place(u16),
    Label([u8; 8]),
}

// Stays: this and `Definition` as two types, a number and a name with a column; in one generic type `place` and `name` would
// both be `value`.
/// A place that is written in front of an instruction.
#[derive(Clone, Copy, Debug, PartialEq, Eq)]
pub struct WrittenPlace {
    pub place: u32,
    pub column: usize,
}

/// A label that is defined in front of an instruction.
#[derive(Clone, Copy, Debug, PartialEq, Eq)]
pub struct Definition {
    pub name: [u8; 8],
    pub column: usize,
}

/// An instruction line.
#[derive(Clone, Copy, Debug, PartialEq, Eq)]
pub struct Source {
    pub line: usize,
    pub written: Option<WrittenPlace>,
    pub label: Option<Definition>,
    pub instruction: Instruction<Target>,
    /// The column of the first operand, which is the target if there is one.
    pub column: usize,
}

/// A line of a text.
#[derive(Clone, Copy, Debug, PartialEq, Eq)]
pub enum Line {
    Blank,
    /// `at`: a stretch opens at this place.
    Opens { line: usize, place: u32 },
    Holds(Source),
}

/// What the translator has put at a place.
#[derive(Clone, Copy, Debug, PartialEq, Eq)]
pub enum Kind {
    Free,
    /// The first byte of an instruction.
    First,
    /// A further byte.
    Further,
    Mark,
}
