//! An instruction: its letter, and the operands that are written after it.

ghost use Rattle.std.specs.Prelude.{◌≡◌, Some};
ghost use Rattle.isa.specs.declared.refusal.Refusal.TheVariants as refusal;
ghost use Rattle.isa.specs.Shapes.{operands};
ghost use Rattle.sequence.specs.Lines.{text_fault, operand_of, one_of, pair_of, value_of, target_from, aimed_at, column_of, formed, coded};
ghost use Rattle.token.specs.Spots.{left};
ghost use Rattle.std.specs.Option.{option_map};
ghost use Rattle.parser.specs.Parts.{head_of, shown_operand, shown_argument, shown_pair, listed};

use isa::{Instruction, Mismatch, Operands, Order, Refusal, Shape, look_up, shape_of};
use sequence::{Definition, Line, Source, Target, TextFault, WrittenPlace};
use token::{Scanner, Spot, name_of, number_of, unsigned_of};

/// What stands in front of an instruction.
#[derive(Clone, Copy, Debug, Default, PartialEq, Eq)]
pub struct Front {
    pub line: usize,
    pub written: Option<WrittenPlace>,
    pub label: Option<Definition>,
}

// Stays: a token and those that follow it, here and for messages, as two parameters; a scanner that holds one token back would
// have it taken out again first thing.
/// The instruction's own token, and the operands after it.
pub fn instruction<'a>(
    front: Front,
    spot: Spot<'a>,
    mut scan: Scanner<'a>,
) -> Result<Line, TextFault>
    ensures { result ≡ coded (head_of front) spot.entry.column spot.entry.text.now (left scan.entry) }
{
    let Some((letter, touching)) = spot.text.split_first() else {
        return Err(wrong_operands(front.line));
    };
    // Stays: a cast; with `char::from` the proof of this function does not close.
    let letter = *letter as char;
    let unknown = TextFault::new(Refusal::Letter, front.line, spot.column);
    let shape = shape_of(letter).ok_or(unknown)?;
    // What touches the letter is its first operand.
    let first = if touching.is_empty() {
        scan.next()
    } else {
        Some(Spot {
            text: touching,
            ..spot
        })
    };
    let arguments = Arguments::read(shape, first, scan).ok_or(wrong_operands(front.line))?;
    ranged(front, letter, spot.column, arguments)
}

/// The instruction, if its operands are in range.
fn ranged(
    front: Front,
    letter: char,
    column: usize,
    arguments: Arguments,
) -> Result<Line, TextFault>
    ensures { result ≡ formed (head_of front) letter column (Some (shown_pair arguments)) }
{
    match look_up(letter, arguments.operands()) {
        Ok(entry) => Ok(Line::Holds(Source {
            line: front.line,
            written: front.written,
            label: front.label,
            instruction: arguments.aim(entry.instruction),
            column: arguments.column_of(Order::First),
        })),
        Err(Mismatch::OutOfRange(_, order)) => Err(TextFault::new(
            Refusal::Range,
            front.line,
            arguments.column_of(order),
        )),
        Err(Mismatch::UnknownLetter) => Err(TextFault::new(Refusal::Letter, front.line, column)),
    }
}

/// Operands that are not those of their letter, in number or form.
pub(crate) fn wrong_operands(line: usize) -> TextFault
    ensures { result ≡ text_fault refusal.Operands line 0 }
{
    TextFault::new(Refusal::Operands, line, 0)
}

/// An operand as it is written.
#[derive(Clone, Copy, Debug, PartialEq, Eq)]
pub(crate) enum Operand {
    Number(i64),
    Named([u8; 8]),
}

/// What a token is as an operand.
fn operand_of(is_target: bool, text: &[u8]) -> Option<Operand>
    ensures { option_map shown_operand result ≡ operand_of is_target text.now }
{
    if is_target {
        let place = || unsigned_of(text).map(|n| Operand::Number(i64::from(n)));
        name_of(text).map(Operand::Named).or_else(place)
    } else {
        number_of(text).map(Operand::Number)
    }
}

/// An operand and the column of its token.
#[derive(Clone, Copy, Debug, PartialEq, Eq)]
pub(crate) struct Argument {
    operand: Operand,
    column: usize,
}

impl Argument {
    fn read(is_target: bool, spot: Spot) -> Option<Argument>
        ensures { option_map shown_argument result ≡ one_of spot.entry.column (operand_of is_target spot.entry.text.now) }
    {
        let operand = operand_of(is_target, spot.text)?;
        Some(Argument {
            operand,
            column: spot.column,
        })
    }

    /// A name counts as place 0 until it is looked up.
    fn value(self) -> i64
        ensures { result ≡ value_of (shown_operand self.operand) }
    {
        match self.operand {
            Operand::Number(n) => n,
            Operand::Named(_) => 0,
        }
    }
}

// Stays: 0 and no Option as the value of a name, and as the value and column of an operand that is not there; the definition
// of a line has 0 for them, and the table reads both operands.
/// The operands after a letter.
#[derive(Clone, Copy, Debug, Default, PartialEq, Eq)]
pub(crate) struct Arguments {
    first: Option<Argument>,
    second: Option<Argument>,
}

impl Arguments {
    /// The operands that a letter of this shape takes, in number and form: `first` is the first of them, and the others
    /// are still to come.
    fn read<'a>(shape: Shape, first: Option<Spot<'a>>, mut scan: Scanner<'a>) -> Option<Arguments>
        ensures { option_map shown_pair result ≡ pair_of shape (listed first.entry (left scan.entry)) }
    {
        let count = shape.operand_count();
        let Some(first) = first else {
            return (count == 0).then_some(Arguments::default());
        };
        let one = Argument::read(shape.has_target(), first)?;
        let Some(second) = scan.next() else {
            return (count == 1).then_some(Arguments {
                first: Some(one),
                second: None,
            });
        };
        let two = Argument::read(false, second)?;
        (count == 2 && scan.next().is_none()).then_some(Arguments {
            first: Some(one),
            second: Some(two),
        })
    }

    /// The operands as numbers, 0 for one that is not there.
    fn operands(self) -> Operands
        ensures { result ≡ operands (value_of (shown_pair self).first) (value_of (shown_pair self).second) }
    {
        Operands {
            first: self.first.map_or(0, Argument::value),
            second: self.second.map_or(0, Argument::value),
        }
    }

    /// The column of an operand, or 0 where it is not there.
    fn column_of(self, order: Order) -> usize
        ensures { result ≡ column_of order (shown_pair self) }
    {
        let argument = match order {
            Order::First => self.first,
            Order::Second => self.second,
        };
        argument.map_or(0, |argument| argument.column)
    }

    /// The instruction with its target as written.
    fn aim(self, instruction: Instruction<u16>) -> Instruction<Target>
        ensures { result ≡ aimed_at (shown_pair self).first instruction }
    {
        let place = instruction.target().unwrap_or(0);
        instruction.with_target(self.target_at(place))
    }

    /// The target as written: the first operand, whose value is this place.
    fn target_at(self, place: u16) -> Target
        ensures { result ≡ target_from (shown_pair self).first place }
    {
        match self.first.map(|first| first.operand) {
            Some(Operand::Named(name)) => Target::Label(name),
            _ => Target::Place(place),
        }
    }
}
