//! The tokens of a line, one by one.

ghost use Rattle.std.specs.Prelude.{◌≡◌, ◌+◌, ◌^◌, ◌<◌, ◌≤◌, ℕ, Bool, true, length};
ghost use Rattle.std.specs.List.{prefix_len};
ghost use Rattle.std.specs.Iterator.{YieldsFirstBy, item_count};
ghost use Rattle.sequence.specs.Texts.{gap, tokens};

/// A token and where it begins; line and column count from 1.
#[derive(Clone, Copy, Debug, PartialEq, Eq)]
pub struct Spot<'a> {
    pub line: usize,
    pub column: usize,
    pub text: &'a [u8],
}

/// The tokens of a line that are still to come, and the number of the line.
#[derive(Clone, Copy, Debug)]
pub struct Scanner<'a> {
    line: usize,
    column: usize,
    rest: &'a [u8],
    ghost fits: { column + length rest.now < 2 ^ 64 },
}

impl<'a> Scanner<'a> {
    ghost use Rattle.token.specs.Spots.{left};

    /// At the beginning of a line.
    #[tactic(auto, using(crate::proofs::Fronts::few_tokens))]
    pub fn new(line: usize, text: &'a [u8]) -> Scanner<'a>
        ensures number { result.line ≡ line }
        ensures tokens { left result ≡ tokens 1 true text.now }
        ensures few { length (left result) ≤ length text.now }
    {
        Scanner {
            line,
            column: 1,
            rest: text,
        }
    }
}

impl<'a> Iterator for Scanner<'a> {
    ghost use Rattle.token.specs.Spots.{left, token_of, Gives};

    type Item = Spot<'a>;

    ghost next_gives = { YieldsFirstBy token_of left };

    ghost remaining = { item_count left };

    fn next(&mut self) -> Option<Spot<'a>>
        ensures { Gives result self.old self.new }
    {
        if self.rest.is_empty() {
            return None;
        }
        let (gaps, from) = self.rest.split_at(front_len(self.rest, is_gap));
        let (text, rest) = from.split_at(front_len(from, |b| !is_gap(b)));
        let column = self.column + gaps.len();
        self.column = column + text.len();
        self.rest = rest;
        if text.is_empty() {
            return None;
        }
        Some(Spot {
            line: self.line,
            column,
            text,
        })
    }
}

fn is_gap(b: u8) -> bool
    ensures { result ≡ gap b }
{
    b == b' ' || b == b','
}

/// How many bytes in front pass a test.
pub(crate) fn front_len<F: Fn(u8) -> bool>(s: &[u8], test: F) -> usize
    requires { F.IsAlwaysCallable test }
    ensures within { result ≤ length s.now }
    ensures size { (p : ℕ → Bool) → ((b : ℕ) (r : Bool) → F.post test b r → r ≡ p b) → result ≡ prefix_len p s.now }
{
    s.iter().take_while(|b| test(**b)).count()
}
