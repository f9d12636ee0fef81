//! The translator: a sequence text into the image of a board.

#![tactic(auto)]

ghost use Rattle.std.specs.Prelude.{◌≡◌, length, OnOk};
ghost use Rattle.sequence.specs.Layouts.{LaysOut};
ghost use Rattle.sequence.specs.RoundTrips.{ListedAgain, RoundTrips};
ghost use Rattle.translator.specs.Answers.{translated, answered, image_after, TableAfter};

use isa::{IMAGE_SIZE, Refusal};
use plan::Plan;
use sequence::{Label, TextFault};
use sizes::is_sized;

mod labels;
mod passes;
mod plan;
mod resolve;
mod sizes;

pub use sizes::{MOST_BYTES, MOST_LABELS, MOST_LINES};

/// How many instruction lines and labels an accepted text has.
#[derive(Clone, Copy, Debug, PartialEq, Eq)]
pub struct Translated {
    pub lines: usize,
    pub labels: usize,
}

/// Translates a text into the image of a board, and fills the table with its labels in the order of the text.
///
/// Refused with the line and the column at fault, and with the image as it was; with `Size`, line 0 and column 0 if the
/// text is over its limits, the image has not 2,048 bytes or the table has under 64 records. Records past the filled
/// ones stay as they were.
#[tactic(auto, using(layout::proofs::Laying::lays_out, relisting::proofs::RoundTrips::listed_again))]
pub fn translate(
    text: &[u8],
    image: &mut [u8],
    labels: &mut [Label],
) -> Result<Translated, TextFault>
    ensures answer { result ≡ answered (translated text.now (length image.old) (length labels.old)) }
    ensures image { image.new ≡ image_after image.old (translated text.now (length image.old) (length labels.old)) }
    ensures table { TableAfter labels.old labels.new (translated text.now (length image.old) (length labels.old)) }
    ensures law { LaysOut text.now }
    ensures listed { ListedAgain text.now }
    ensures round { OnOk result (RoundTrips image.new) }
{
    if !is_sized(text) || image.len() != IMAGE_SIZE || labels.len() < MOST_LABELS {
        return Err(TextFault::new(Refusal::Size, 0, 0));
    }
    let mut plan = Plan::new(labels);
    plan.place_lines(text)?;
    let bytes = plan.assemble(text)?;
    image.copy_from_slice(&bytes);
    Ok(Translated {
        lines: plan.lines,
        labels: plan.filled,
    })
}
