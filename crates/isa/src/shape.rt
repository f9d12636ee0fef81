//! How the operands of a letter stand in memory and in a text.

ghost use Rattle.std.specs.Prelude.{◌≡◌};
ghost use Rattle.isa.specs.Shapes.{width_of, count_of, aims, three, operands_in};
ghost use Rattle.isa.specs.TwosComplement.{half24, value_of};

// Stays: 0 and no Option for an operand that a letter does not have; no row of the table reads it, and each row that reads
// one would have to unwrap it.
/// The operands of an instruction as numbers; 0 stands for one that its letter does not have.
#[derive(Clone, Copy, Debug, Default, PartialEq, Eq)]
pub struct Operands {
    pub first: i64,
    pub second: i64,
}

/// The first or the second of two operands.
#[derive(Clone, Copy, Debug, PartialEq, Eq)]
pub enum Order {
    First,
    Second,
}

/// The operands that a letter takes and the bytes that they take, low byte first.
#[derive(Clone, Copy, Debug, PartialEq, Eq)]
pub enum Shape {
    /// No operand.
    Plain,
    /// One byte.
    Byte,
    /// Two operands of one byte each.
    Pair,
    /// Two bytes.
    Word,
    /// A target in two bytes.
    Target,
    /// A target in two bytes, then one byte.
    TargetByte,
    /// Three bytes in two's complement.
    Signed,
    /// Three bytes.
    Long,
}

impl Shape {
    /// How many bytes an instruction of this shape takes, its letter included.
    pub fn width(self) -> usize
        ensures { result ≡ width_of self }
    {
        match self {
            Shape::Plain => 1,
            Shape::Byte => 2,
            Shape::Pair | Shape::Word | Shape::Target => 3,
            Shape::TargetByte | Shape::Signed | Shape::Long => 4,
        }
    }

    /// How many operands a text writes.
    pub fn operand_count(self) -> usize
        ensures { result ≡ count_of self }
    {
        match self {
            Shape::Plain => 0,
            Shape::Byte | Shape::Word | Shape::Target | Shape::Signed | Shape::Long => 1,
            Shape::Pair | Shape::TargetByte => 2,
        }
    }

    /// Whether the first operand is a target.
    pub fn has_target(self) -> bool
        ensures { result ≡ aims self }
    {
        matches!(self, Shape::Target | Shape::TargetByte)
    }

    /// The operands that stand in the bytes after the letter; bytes past the shape's width do not count.
    pub fn operands_in(self, bytes: [u8; 3]) -> Operands
        ensures { result ≡ operands_in self bytes }
    {
        let [low, middle, high] = bytes;
        let word = u16::from_le_bytes([low, middle]);
        let (first, second) = match self {
            Shape::Plain => (0, 0),
            Shape::Byte => (i64::from(low), 0),
            Shape::Pair => (i64::from(low), i64::from(middle)),
            Shape::Word | Shape::Target => (i64::from(word), 0),
            Shape::TargetByte => (i64::from(word), i64::from(high)),
            Shape::Signed => (signed(low, middle, high), 0),
            Shape::Long => (i64::from(u32::from_le_bytes([low, middle, high, 0])), 0),
        };
        Operands { first, second }
    }
}

/// Three bytes in two's complement.
fn signed(low: u8, middle: u8, high: u8) -> i64
    ensures { result ≡ value_of half24 (three low middle high) }
{
    let sign = if high < 128 { 0 } else { 255 };
    i64::from(i32::from_le_bytes([low, middle, high, sign]))
}
