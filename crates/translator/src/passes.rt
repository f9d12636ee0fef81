//! The two passes over a text: lines find their places, then targets become places and the bytes are written.

ghost use Rattle.std.specs.Prelude.{◌≡◌, ◌+◌, ◌≤◌, length, Ok};
ghost use Rattle.sequence.specs.Texts.{lines};
ghost use Rattle.sequence.specs.Translations.{labels_in, planned, assembled, blank};
ghost use Rattle.sequence.specs.Placings.{fresh};
ghost use Rattle.translator.specs.Plans.{plan_of, Steps, Rests};

use crate::plan::Plan;
use isa::{IMAGE_SIZE, MARK};
use parser::parse;
use sequence::TextFault;
use token::Lines;

const FIRST_LINE: usize = 1;

impl Plan<'_> {
    /// The first pass: each line is taken apart and finds its place.
    pub(crate) fn place_lines(&mut self, text: &[u8]) -> Result<(), TextFault>
        requires room { self.old.filled + labels_in (lines text.now) ≤ length self.old.table.now }
        requires none { self.old.lines ≡ 0 }
        ensures planned { Steps result (planned 1 (lines text.now) (plan_of self.old)) (plan_of self.new) }
        ensures table { Rests self.old self.new }
    {
        for (number, line) in (FIRST_LINE..).zip(Lines::new(text)) {
            self.place(parse(number, line)?)?;
        }
        Ok(())
    }

    /// The second pass: targets become places, and the bytes are written.
    pub(crate) fn assemble(&self, text: &[u8]) -> Result<[u8; IMAGE_SIZE], TextFault>
        requires { planned 1 (lines text.now) fresh ≡ Ok (plan_of self.now) }
        ensures { result ≡ assembled (plan_of self.now) 1 (lines text.now) 0 blank }
    {
        let mut image = [MARK; IMAGE_SIZE];
        let mut place = 0;
        for (number, line) in (FIRST_LINE..).zip(Lines::new(text)) {
            place = self.paint(parse(number, line)?, place, &mut image)?;
        }
        Ok(image)
    }
}
