//! The lister: an image back into a text that a person can read and the translator takes.

#![tactic(auto)]

ghost use Rattle.std.specs.Prelude.{◌≡◌, ◌≤◌, length};
ghost use Rattle.sequence.specs.Listings.{listing, listed, answered, written, Short};
ghost use Rattle.sequence.specs.RoundTrips.{Relists, RefusesRightly};

use isa::{IMAGE_SIZE, Refusal};
use sequence::ImageFault;

mod print;
mod targets;
mod walk;

/// The output that every listing fits into.
pub const LISTING_ROOM: usize = 16_384;

/// Lists an image: its listing in front of `out`, and how many bytes that takes.
///
/// Refused with the place at fault, and with `out` as it was, if the image is none that a text yields; with `Size` and
/// place 0 if the image has not 2,048 bytes or the output has under 16,384.
#[tactic(auto, using(sequence::proofs::Lengths::short))]
pub fn list(image: &[u8], out: &mut [u8]) -> Result<usize, ImageFault>
    ensures answer { result ≡ answered (listed image.now (length out.old)) }
    ensures output { out.new ≡ written out.old (listed image.now (length out.old)) }
    ensures short { Short image.now }
    ensures relisted { Relists image.now }
    ensures exact { RefusesRightly image.now }
{
    let fault = ImageFault::new(Refusal::Size, 0);
    let image = image.as_array().ok_or(fault)?;
    if out.len() < LISTING_ROOM {
        return Err(fault);
    }
    list_image(image, out)
}

/// Lists an image into an output that has room for it.
fn list_image(image: &[u8; IMAGE_SIZE], out: &mut [u8]) -> Result<usize, ImageFault>
    requires { LISTING_ROOM ≤ length out.old }
    ensures answer { result ≡ answered (listing image.now) }
    ensures output { out.new ≡ written out.old (listing image.now) }
{
    let firsts = targets::first_bytes(image)?;
    targets::check(image, &firsts)?;
    print::print(image, out)
}
