//! One line of a text, taken apart.

ghost use Rattle.std.specs.Prelude.{◌≡◌, ◌∷◌};
ghost use Rattle.sequence.specs.Lines.{first_bad, opened, labelled, taken, parsed};
ghost use Rattle.token.specs.Spots.{left, token_of};

use crate::instructions::{Front, instruction, wrong_operands};
use isa::Refusal;
use sequence::{Definition, Line, TextFault, WrittenPlace};
use token::{Scanner, Spot, is_at, label_of, place_of};

const LONGEST: usize = 80;

/// Line `line` of a text.
pub fn parse(line: usize, text: &[u8]) -> Result<Line, TextFault>
    ensures { result ≡ parsed line text.now }
{
    if text.len() > LONGEST {
        return Err(TextFault::new(Refusal::Long, line, 0));
    }
    if let Some(column) = first_bad(text) {
        return Err(TextFault::new(Refusal::Character, line, column));
    }
    take_apart(Scanner::new(line, text))
}

/// The column of the first byte that is not allowed.
pub fn first_bad(text: &[u8]) -> Option<usize>
    ensures { result ≡ first_bad text.now }
{
    text.iter()
        .position(|b| !(b' '..=b'~').contains(b))
        .map(|i| i + 1)
}

fn take_apart(mut scan: Scanner) -> Result<Line, TextFault>
    ensures { result ≡ taken scan.entry.line (left scan.entry) }
{
    let Some(first) = scan.next() else {
        return Ok(Line::Blank);
    };
    if is_at(first.text) {
        return opening(first.line, scan);
    }
    let Some(place) = place_of(first) else {
        return perhaps_label(None, first, scan);
    };
    let written = WrittenPlace {
        place,
        column: first.column,
    };
    let second = scan.next().ok_or(wrong_operands(first.line))?;
    perhaps_label(Some(written), second, scan)
}

/// After `at`: one place and nothing more.
fn opening(line: usize, mut scan: Scanner) -> Result<Line, TextFault>
    ensures { result ≡ opened line (left scan.entry) }
{
    let (Some(only), None) = (scan.next(), scan.next()) else {
        return Err(wrong_operands(line));
    };
    let place = place_of(only).ok_or(wrong_operands(line))?;
    Ok(Line::Opens { line, place })
}

/// A label, if there is one, and the instruction.
fn perhaps_label<'a>(
    written: Option<WrittenPlace>,
    spot: Spot<'a>,
    mut scan: Scanner<'a>,
) -> Result<Line, TextFault>
    ensures { result ≡ labelled spot.entry.line written (token_of spot.entry ∷ left scan.entry) }
{
    let bare = Front {
        line: spot.line,
        written,
        label: None,
    };
    let Some(name) = label_of(spot) else {
        return instruction(bare, spot, scan);
    };
    let label = Some(Definition {
        name,
        column: spot.column,
    });
    let next = scan.next().ok_or(wrong_operands(spot.line))?;
    instruction(Front { label, ..bare }, next, scan)
}
