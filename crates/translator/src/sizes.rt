//! How large a text is.

ghost use Rattle.std.specs.Prelude.{◌≡◌, true, length};
ghost use Rattle.sequence.specs.Texts.{lines, tokens};
ghost use Rattle.sequence.specs.Translations.{sized_text, labels_in, label_tokens};

use token::{Lines, Scanner, label_of};

/// How many bytes a text may have.
pub const MOST_BYTES: usize = 16_384;

/// How many lines a text may have.
pub const MOST_LINES: usize = 2_048;

/// How many labels a text may have.
pub const MOST_LABELS: usize = 64;

/// Whether a text is within its limits: bytes, lines, and label-shaped tokens wherever they stand.
pub(crate) fn is_sized(text: &[u8]) -> bool
    ensures { result ≡ sized_text text.now }
{
    if text.len() > MOST_BYTES {
        return false;
    }
    let (count, labels) = count(text);
    count <= MOST_LINES && labels <= MOST_LABELS
}

/// How many lines a text has, and how many of its tokens have the shape of a label, by one walk over it.
fn count(text: &[u8]) -> (usize, usize)
    ensures lines { result.0 ≡ length (lines text.now) }
    ensures labels { result.1 ≡ labels_in (lines text.now) }
{
    let mut count = 0;
    let mut labels = 0;
    for line in Lines::new(text) {
        count += 1;
        labels += count_in_line(line);
    }
    (count, labels)
}

fn count_in_line(line: &[u8]) -> usize
    ensures { result ≡ label_tokens (tokens 1 true line.now) }
{
    Scanner::new(1, line)
        .filter(|spot| label_of(*spot).is_some())
        .count()
}
