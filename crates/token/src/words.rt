//! What a token can be.

ghost use Rattle.std.specs.Prelude.{◌≡◌, ◌-◌, ◌<◌, ◌≤◌, true, cond, Some, None, length, take, codes};
ghost use Rattle.std.specs.Option.{option_map};
ghost use Rattle.std.specs.Str.{bytes_eq};
ghost use Rattle.sequence.specs.Texts.{every, digit, is_name, name_of, is_label, read_on, is_digits, magnitude, unsigned_of, number_of, place_of};
ghost use Rattle.token.specs.Kinds.{Shown, as_name, as_label};

use crate::scanner::Spot;

/// A token by its shape, with its bytes, its line and its column.
#[derive(Clone, Copy, Debug, PartialEq, Eq)]
pub enum Token<'a> {
    /// One to eight digits.
    Place(Spot<'a>),
    /// One to eight letters a to z and a colon.
    Label(Spot<'a>),
    /// Another number: after a minus, or of over eight digits.
    Number(Spot<'a>),
    /// Any other; in front of a line, the letter of an instruction.
    Letter(Spot<'a>),
}

const MOST_DIGITS: usize = 8;

const MOST_LETTERS: usize = 8;

// Stays: a number and no Option; a token of over eight digits is a number too, and every range refuses it.
const TOO_LONG: u32 = 100_000_000;

/// Digits alone, one or more.
fn is_digits(s: &[u8]) -> bool
    ensures { result ≡ is_digits s.now }
{
    !s.is_empty() && s.iter().all(u8::is_ascii_digit)
}

/// One to eight letters a to z.
fn is_name(s: &[u8]) -> bool
    ensures { result ≡ is_name s.now }
{
    (1..=MOST_LETTERS).contains(&s.len()) && s.iter().all(u8::is_ascii_lowercase)
}

/// The name in front of a colon.
fn label_name(s: &[u8]) -> Option<&[u8]>
    ensures { option_map (λ n. n.now) result ≡ cond (is_label s.now) (Some (take (length s.now - 1) s.now)) None }
{
    match s {
        [name @ .., b':'] if is_name(name) => Some(name),
        _ => None,
    }
}

/// Eight bytes: the letters, and 0 after them.
fn padded(name: &[u8]) -> [u8; 8]
    ensures { result ≡ name_of name.now }
{
    let mut letters = [0; MOST_LETTERS];
    let n = name.len().min(MOST_LETTERS);
    letters[..n].copy_from_slice(&name[..n]);
    letters
}

// Stays: a loop and no `fold`; what bounds the sum is not known to a closure, so the proof does not close.
/// The value of at most eight digits.
fn value(digits: &[u8]) -> u32
    requires { (every digit digits.now ≡ true) × (length digits.now ≤ 8) }
    ensures low { result < 100000000 }
    ensures value { result ≡ read_on 0 digits.now }
{
    let mut n = 0;
    for b in digits {
        n = 10 * n + u32::from(*b - b'0');
    }
    n
}

/// The magnitude of digits; those of over eight stand for a number that is outside every range.
fn magnitude(digits: &[u8]) -> u32
    requires { every digit digits.now ≡ true }
    ensures low { result ≤ 100000000 }
    ensures value { result ≡ magnitude digits.now }
{
    if digits.len() > MOST_DIGITS {
        return TOO_LONG;
    }
    value(digits)
}

/// A number without a minus.
pub fn unsigned_of(s: &[u8]) -> Option<u32>
    ensures { result ≡ unsigned_of s.now }
{
    is_digits(s).then(|| magnitude(s))
}

/// A number: digits, after a minus if wanted.
pub fn number_of(s: &[u8]) -> Option<i64>
    ensures { result ≡ number_of s.now }
{
    match s {
        [b'-', digits @ ..] => unsigned_of(digits).map(|n| -i64::from(n)),
        _ => unsigned_of(s).map(i64::from),
    }
}

/// A token by its shape.
pub fn classify<'a>(spot: Spot<'a>) -> Token<'a>
    ensures { Shown result spot.entry }
{
    if is_digits(spot.text) && spot.text.len() <= MOST_DIGITS {
        Token::Place(spot)
    } else if label_name(spot.text).is_some() {
        Token::Label(spot)
    } else if number_of(spot.text).is_some() {
        Token::Number(spot)
    } else {
        Token::Letter(spot)
    }
}

/// The place that a token is: one to eight digits.
pub fn place_of(spot: Spot) -> Option<u32>
    ensures { result ≡ place_of spot.entry.text.now }
{
    match classify(spot) {
        Token::Place(digits) => Some(value(digits.text)),
        _ => None,
    }
}

/// The name that a token labels its line with.
pub fn label_of(spot: Spot) -> Option<[u8; 8]>
    ensures { result ≡ as_label spot.entry.text.now }
{
    label_name(spot.text).map(padded)
}

/// The name that a token is: a target without its colon.
pub fn name_of(s: &[u8]) -> Option<[u8; 8]>
    ensures { result ≡ as_name s.now }
{
    is_name(s).then_some(s).map(padded)
}

/// Whether a token opens a stretch.
pub fn is_at(s: &[u8]) -> bool
    ensures { result ≡ bytes_eq s.now (codes "at") }
{
    s == b"at".as_slice()
}
