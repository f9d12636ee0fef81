//! Four phases, by a row of the sequence table.

ghost use Rattle.std.specs.Prelude.{◌≡◌, true, slice_index};
ghost use Rattle.port.specs.Steps.{none, without_limit};
ghost use Rattle.port.specs.Phases.{columns_of, interleaved, column_of, Moves};

use crate::step::{Counts, StepPort};
use isa::{Direction, Refusal};

/// A row of the sequence table.
#[derive(Clone, Copy, Debug, PartialEq, Eq)]
pub enum Row {
    /// Two phases at a time.
    Full,
    /// One and two phases in turn.
    Half,
    /// One phase at a time.
    Wave,
}

const FULL: [u8; 8] = [10, 9, 5, 6, 10, 9, 5, 6];

const HALF: [u8; 8] = [10, 8, 9, 1, 5, 4, 6, 2];

const WAVE: [u8; 8] = [8, 1, 4, 2, 8, 1, 4, 2];

impl Row {
    /// The phases of the eight columns, the first in the highest of four bits.
    pub fn columns(self) -> [u8; 8]
        ensures value { result ≡ columns_of self }
        ensures rule { interleaved ≡ true }
    {
        match self {
            Row::Full => FULL,
            Row::Half => HALF,
            Row::Wave => WAVE,
        }
    }
}

/// A port that puts out the phases of a motor. It has no limit.
#[derive(Debug, Drop)]
pub struct PhasePort {
    counts: Counts,
    row: Row,
}

impl PhasePort {
    /// No step taken, in the first column of a row.
    pub fn new(row: Row) -> PhasePort
        ensures counts { result.counts ≡ none }
        ensures row { result.row ≡ row }
    {
        PhasePort {
            counts: Counts::default(),
            row,
        }
    }

    /// The column, counted from 0: one on with each step plus, one back with each step minus, modulo 8.
    pub fn column(&self) -> usize
        ensures value { result ≡ column_of self.now.counts }
        ensures law { Moves self.now.counts }
    {
        // Stays: a cast; a `usize` has no `From<u32>`, and a number modulo 8 fits.
        (self.counts.plus.wrapping_sub(self.counts.minus) % 8) as usize
    }

    /// The phases that are on.
    pub fn phases(&self) -> u8
        ensures { result ≡ slice_index (columns_of self.now.row) (column_of self.now.counts) }
    {
        self.row.columns()[self.column()]
    }
}

impl StepPort for PhasePort {
    ghost meaning = { λ p. without_limit p.counts };

    fn step(&mut self, direction: Direction) -> Result<(), Refusal> {
        self.counts = self.counts.with(direction);
        Ok(())
    }

    fn counts(&self) -> Counts {
        self.counts
    }
}
