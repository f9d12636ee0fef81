//! Where the lines fall: stretches, places and labels.

ghost use Rattle.std.specs.Prelude.{◌≡◌, ◌+◌, ◌<◌, ◌≤◌, true, length};
ghost use Rattle.isa.specs.Codes.{width};
ghost use Rattle.isa.specs.Checks.{require};
ghost use Rattle.isa.specs.Places.{user};
ghost use Rattle.isa.specs.declared.refusal.Refusal.TheVariants.{Stale, Area, Overlap};
ghost use Rattle.sequence.specs.declared.text.Line.TheVariants.{Opens, Holds};
ghost use Rattle.sequence.specs.Lines.{text_fault};
ghost use Rattle.sequence.specs.Placings.{free, lay, width_of, unaimed, written_user, written_here, written_column, fresh, step};

use isa::{IMAGE_SIZE, Instruction, Refusal, is_user_place, shape_of};
use sequence::{Kind, Label, Line, Source, Target, TextFault};

/// The open stretch: the place of its next line, and whether it has lines.
#[derive(Clone, Copy)]
pub(crate) struct Stretch {
    pub next: usize,
    pub used: bool,
    ghost in_area: { user next ≡ true },
}

/// What has been placed so far, with the caller's table, whose first records are filled. The open stretch's own mark is not
/// yet among the kinds.
#[derive(Drop)]
pub(crate) struct Plan<'a> {
    pub stretch: Option<Stretch>,
    pub kinds: [Kind; IMAGE_SIZE],
    // Stays: a slice and how much of it is filled; the caller lends the table, and it is filled in place.
    pub table: &'a mut [Label],
    pub filled: usize,
    pub lines: usize,
    ghost within: { filled ≤ length table.now },
}

impl<'a> Plan<'a> {
    ghost use Rattle.layout.proofs.LabelCounts.{defined_by};
    ghost use Rattle.translator.specs.Plans.{plan_of, Steps, HasRoom, Kept, Falls, unnamed, entries};

    /// Nothing is placed.
    pub(crate) fn new(table: &'a mut [Label]) -> Plan<'a>
        ensures same_reference { result.table.ghost_name ≡ table.entry.ghost_name }
        ensures table { result.table.now ≡ table.old }
        ensures plan { plan_of result ≡ fresh }
        ensures none { (result.filled ≡ 0) × (result.lines ≡ 0) }
    {
        Plan {
            stretch: None,
            kinds: [Kind::Free; IMAGE_SIZE],
            table,
            filled: 0,
            lines: 0,
        }
    }

    /// One line more of the text.
    pub(crate) fn place(&mut self, line: Line) -> Result<(), TextFault>
        requires { HasRoom (defined_by line) self.old }
        ensures step { Steps result (step line (plan_of self.old)) (plan_of self.new) }
        ensures kept { Kept result (defined_by line) self.old self.new }
    {
        match line {
            Line::Blank => Ok(()),
            Line::Opens { line, place } => self.open(line, place),
            Line::Holds(source) => self.hold(source),
        }
    }

    /// A stretch opens, and the one before it gets its mark.
    fn open(&mut self, line: usize, place: u32) -> Result<(), TextFault>
        ensures step { Steps result (step (Opens line place) (plan_of self.old)) (plan_of self.new) }
        ensures same { (self.new.table ≡ self.old.table) × (self.new.filled ≡ self.old.filled) × (self.new.lines ≡ self.old.lines) }
    {
        // Stays: a cast; no `From` takes a u32 to a usize.
        let next = place as usize;
        if !is_user(next) {
            return Err(TextFault::new(Refusal::Area, line, 0));
        }
        if let Some(stretch) = self.stretch
            && stretch.used
        {
            self.kinds[stretch.next] = Kind::Mark;
        }
        self.stretch = Some(Stretch { next, used: false });
        Ok(())
    }

    /// A line finds its place: its label, its area, its written place, its neighbours, in this order.
    fn hold(&mut self, source: Source) -> Result<(), TextFault>
        requires { HasRoom (defined_by (Holds source)) self.old }
        ensures step { Steps result (step (Holds source) (plan_of self.old)) (plan_of self.new) }
        ensures kept { Kept result (defined_by (Holds source)) self.old self.new }
    {
        self.check_label(source)?;
        let width = width_of(source.instruction);
        let place = self.next_place(source, width)?;
        check_written(source, place)?;
        self.check_free(source, place, width)?;
        lay_down(&mut self.kinds, place, width);
        self.define(source, place);
        self.stretch = Some(Stretch {
            next: place + width,
            used: true,
        });
        self.lines += 1;
        Ok(())
    }

    /// The label of a line is not defined yet.
    fn check_label(&self, source: Source) -> Result<(), TextFault>
        ensures { result ≡ unnamed source source.label (entries self.now) }
    {
        match source.label {
            Some(label) if self.find(label.name).is_some() => Err(TextFault::new(
                Refusal::Label,
                source.line,
                label.column,
            )),
            _ => Ok(()),
        }
    }

    /// Where a line falls: a stretch is open; a written place, the bytes of the instruction and the place after them are
    /// user places.
    fn next_place(&self, source: Source, width: usize) -> Result<usize, TextFault>
        requires { (width ≡ width_of source) × (1 ≤ width) × (width ≤ 4) }
        ensures { Falls result source (plan_of self.now) }
    {
        match self.stretch {
            Some(open) if written_is_user(source) && is_user(open.next + width) => Ok(open.next),
            _ => Err(TextFault::new(Refusal::Area, source.line, 0)),
        }
    }

    // Stays: a place and a width as two parameters, here and below; a struct of both would be made in `hold` and taken apart
    // in each.
    /// No other stretch has a byte or a mark there.
    fn check_free(&self, source: Source, place: usize, width: usize) -> Result<(), TextFault>
        requires { place + width < 2048 }
        ensures { result ≡ require (free self.now.kinds place (width + 1)) (text_fault Overlap source.line 0) }
    {
        if !is_free(&self.kinds, place, width + 1) {
            return Err(TextFault::new(Refusal::Overlap, source.line, 0));
        }
        Ok(())
    }
}

fn is_user(place: usize) -> bool
    ensures { result ≡ user place }
{
    u16::try_from(place).is_ok_and(|place| is_user_place(place))
}

fn written_is_user(source: Source) -> bool
    ensures { result ≡ written_user source.written }
{
    source
        .written
        .is_none_or(|written| is_user(written.place as usize))
}

/// A written place is where the line falls.
fn check_written(source: Source, place: usize) -> Result<(), TextFault>
    ensures { result ≡ require (written_here source.written place) (text_fault Stale source.line (written_column source.written)) }
{
    match source.written {
        Some(written) if written.place as usize != place => Err(TextFault::new(
            Refusal::Stale,
            source.line,
            written.column,
        )),
        _ => Ok(()),
    }
}

/// Whether `n` places from `p` on are free.
fn is_free(kinds: &[Kind; IMAGE_SIZE], p: usize, n: usize) -> bool
    requires { p + n ≤ 2048 }
    ensures { result ≡ free kinds.now p n }
{
    kinds[p..p + n].iter().all(|kind| *kind == Kind::Free)
}

/// An instruction of `w` bytes takes its places.
fn lay_down(kinds: &mut [Kind; IMAGE_SIZE], p: usize, w: usize)
    requires { (1 ≤ w) × (p + w ≤ 2048) }
    ensures { kinds.new ≡ lay kinds.old p w }
{
    kinds[p] = Kind::First;
    kinds[p + 1..p + w].fill(Kind::Further);
}

/// How many bytes a line's instruction takes.
pub(crate) fn width_of(instruction: Instruction<Target>) -> usize
    ensures value { result ≡ width (unaimed instruction) }
    ensures some { 1 ≤ result }
    ensures four { result ≤ 4 }
{
    shape_of(char::from(instruction.command_letter())).map_or(1, |shape| shape.width())
}
