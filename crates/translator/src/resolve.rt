//! Targets become places, and the bytes are written.

ghost use Rattle.std.specs.Prelude.{◌≡◌, ◌+◌, ◌≤◌, OnOk, if◌then◌else◌, slice_index_or};
ghost use Rattle.std.proofs.lemmas.List.Edits.{sets};
ghost use Rattle.isa.specs.declared.refusal.Refusal.TheVariants.{Range};
ghost use Rattle.isa.specs.Codes.{encoded, width, in_range};
ghost use Rattle.sequence.specs.declared.text.Kind.TheVariants.{Free};
ghost use Rattle.sequence.specs.Placings.{is_first, aimed, resolved_target, resolve_line};
ghost use Rattle.sequence.specs.Translations.{painted, after};
ghost use Rattle.translator.specs.Plans.{plan_of, Fits, Paints};

use crate::plan::Plan;
use isa::{Code, IMAGE_SIZE, Instruction, Refusal, encode};
use sequence::{Kind, Line, Source, Target, TextFault};

impl Plan<'_> {
    /// Whether the first byte of an instruction is at a place.
    fn is_first(&self, place: u16) -> bool
        ensures { result ≡ is_first (slice_index_or self.now.kinds place Free) }
    {
        self.kinds.get(usize::from(place)) == Some(&Kind::First)
    }

    /// The place that a target names.
    fn look_for(&self, source: Source, target: Target) -> Result<u16, TextFault>
        ensures { result ≡ aimed (plan_of self.now) source.line source.column target }
    {
        match target {
            Target::Place(place) => Ok(place),
            Target::Label(name) => self
                .find(name)
                .ok_or(TextFault::new(Refusal::Label, source.line, source.column)),
        }
    }

    /// The place of a target, which is the first byte of an instruction.
    fn target_place(&self, source: Source, target: Target) -> Result<u16, TextFault>
        ensures { result ≡ resolved_target (plan_of self.now) source.line source.column target }
    {
        let place = self.look_for(source, target)?;
        if !self.is_first(place) {
            return Err(TextFault::new(Refusal::Target, source.line, source.column));
        }
        Ok(place)
    }

    /// A line's instruction with its target as a place.
    fn resolve(&self, source: Source) -> Result<Instruction<u16>, TextFault>
        ensures { result ≡ resolve_line (plan_of self.now) source }
    {
        let place = match source.instruction.own_target() {
            Some(target) => self.target_place(source, target)?,
            None => 0,
        };
        Ok(source.instruction.with_target(place))
    }

    /// Writes the bytes of a line at its place, with its target as a place, and answers the place after them.
    pub(crate) fn paint(
        &self,
        line: Line,
        place: usize,
        image: &mut [u8; IMAGE_SIZE],
    ) -> Result<usize, TextFault>
        requires { Fits line place }
        ensures { Paints result (painted (plan_of self.now) line place image.old) image.new (after line place) }
    {
        match line {
            Line::Blank => Ok(place),
            // Stays: a cast; no `From` takes a u32 to a usize.
            Line::Opens { place, .. } => Ok(place as usize),
            Line::Holds(source) => {
                let instruction = self.resolve(source)?;
                put(image, place, instruction).map_err(|refusal| TextFault::new(
                    refusal,
                    source.line,
                    source.column,
                ))
            }
        }
    }
}

/// Writes the bytes of an instruction at its place, and answers the place after them.
fn put(
    image: &mut [u8; IMAGE_SIZE],
    place: usize,
    instruction: Instruction<u16>,
) -> Result<usize, Refusal>
    requires { place + width instruction ≤ 2048 }
    ensures place { result ≡ (if in_range instruction then Ok (place + width instruction) else Err Range) }
    ensures image { OnOk result (image.new ≡ sets image.old place (encoded instruction)) }
{
    let Code { bytes, len } = encode(instruction)?;
    let end = place + len;
    image[place..end].copy_from_slice(&bytes[..len]);
    Ok(end)
}
