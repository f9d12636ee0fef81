//! The lines of a text, one by one.

ghost use Rattle.std.specs.Prelude.{◌≡◌, ◌≤◌, length};
ghost use Rattle.std.specs.Iterator.{YieldsFirstRef, item_count};
ghost use Rattle.sequence.specs.Texts.{front, lines};

use crate::scanner::front_len;
use std::marker::Model;

/// How many bytes the line in front has: those before the next line feed, or before the end.
pub fn line_len(text: &[u8]) -> usize
    ensures within { result ≤ length text.now }
    ensures size { result ≡ length (front text.now) }
{
    front_len(text, |b| b != b'\n')
}

/// The lines of a text that are still to come, each without its line feed.
#[derive(Clone, Debug, Drop)]
pub struct Lines<'a> {
    rest: &'a [u8],
}

impl<'a> Model for Lines<'a> {
    ghost use Rattle.std.specs.Prelude.{ℕ, List};
    ghost use Rattle.sequence.specs.Texts.{lines};

    ghost Value = { List (List ℕ) };

    ghost view = { λ s. lines s.rest.now };
}

impl<'a> Lines<'a> {
    /// All lines of a text.
    #[tactic(auto, using(crate::proofs::Cuts::few_lines))]
    pub fn new(text: &'a [u8]) -> Lines<'a>
        ensures lines { result ≡ lines text.now }
        ensures few { length result ≤ length text.now }
    {
        Lines { rest: text }
    }
}

impl<'a> Iterator for Lines<'a> {
    type Item = &'a [u8];

    ghost next_gives = { YieldsFirstRef (λ lines. lines) };

    ghost remaining = { item_count (λ lines. lines) };

    fn next(&mut self) -> Option<&'a [u8]> {
        if self.rest.is_empty() {
            return None;
        }
        let n = line_len(self.rest);
        let line = &self.rest[..n];
        self.rest = self.rest.get(n + 1..).unwrap_or(&[]);
        Some(line)
    }
}
