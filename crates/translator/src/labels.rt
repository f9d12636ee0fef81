//! The caller's table of labels, filled in the order of the text and looked up in place.

ghost use Rattle.std.specs.Prelude.{◌≡◌, ◌+◌, ◌<◌, ◌≤◌, length};
ghost use Rattle.sequence.specs.Placings.{place_in};

use crate::plan::Plan;
use sequence::{Label, Source};

impl Plan<'_> {
    ghost use Rattle.layout.proofs.LabelCounts.{defined_in};
    ghost use Rattle.translator.specs.Plans.{entries, with_label, Rests};

    /// The place of the label of this name.
    pub(crate) fn find(&self, name: [u8; 8]) -> Option<u16>
        ensures { result ≡ place_in (entries self.now) name }
    {
        self.table[..self.filled]
            .iter()
            .find(|label| label.name == name)
            .map(|label| label.place)
    }

    /// Puts the label of a line, if it has one, after the filled records.
    pub(crate) fn define(&mut self, source: Source, place: usize)
        requires room { self.old.filled + defined_in source.label ≤ length self.old.table.now }
        requires place { place < 2048 }
        ensures entries { entries self.new ≡ with_label source.label source place (entries self.old) }
        ensures filled { self.new.filled ≡ self.old.filled + defined_in source.label }
        ensures rests { Rests self.old self.new }
        ensures same { (self.new.stretch ≡ self.old.stretch) × (self.new.kinds ≡ self.old.kinds) × (self.new.lines ≡ self.old.lines) }
    {
        if let Some(label) = source.label {
            let name = label.name;
            self.table[self.filled] = Label {
                name,
                line: source.line,
                // Stays: a cast; the place is below 2,048.
                place: place as u16,
            };
            self.filled += 1;
        }
    }
}
