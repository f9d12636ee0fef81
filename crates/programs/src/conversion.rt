//! Listing and translating with memory of their own.

ghost use Rattle.std.specs.Prelude.{◌≡◌, IfOk};
ghost use Rattle.sequence.specs.Listings.{listing_room, listed};
ghost use Rattle.sequence.specs.Translations.{translation};
ghost use Rattle.programs.specs.Conversions.{listing_in, translation_in};

use arrayvec::ArrayVec;
use isa::IMAGE_SIZE;
use lister::{LISTING_ROOM, list};
use sequence::{ImageFault, Label, TextFault};
use std::alloc::{AllocError, Global};
use translator::{MOST_LABELS, translate};

/// The listing of an image, or why there is none.
pub fn listing_of(heap: Global, image: &[u8]) -> Result<Result<Vec<u8>, ImageFault>, AllocError>
    ensures { IfOk result (λ answer. listing_in answer ≡ listed image.now listing_room) }
{
    let mut listing = vec![in heap; 0u8; LISTING_ROOM]?;
    let answer = list(image, listing.as_mut_slice());
    Ok(answer.map(|len| {
        listing.truncate(len);
        listing
    }))
}

/// An accepted text: its image, its labels in text order, and how many instruction lines it has.
#[derive(Debug, Drop)]
pub struct Translation {
    pub image: [u8; IMAGE_SIZE],
    pub labels: ArrayVec<Label, MOST_LABELS>,
    pub lines: usize,
}

/// The translation of a text, or why there is none. It needs no heap.
pub fn translation_of(text: &[u8]) -> Result<Translation, TextFault>
    ensures { translation_in result ≡ translation text.now }
{
    let mut image = [0; IMAGE_SIZE];
    let mut table = [Label::default(); MOST_LABELS];
    let counts = translate(text, &mut image, &mut table)?;
    let mut labels = ArrayVec::from(table);
    labels.truncate(counts.labels);
    Ok(Translation {
        image,
        labels,
        lines: counts.lines,
    })
}
