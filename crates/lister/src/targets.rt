//! Every target is the first byte of an instruction.

ghost use Rattle.std.specs.Prelude.{◌≡◌, true, false, replicate, is_ok};
ghost use Rattle.sequence.specs.Images.{walk};
ghost use Rattle.lister.specs.Targets.{firsts, checked_one, checked};
ghost use Rattle.lister.specs.Walks.{Sound};

use crate::walk::Walk;
use isa::{IMAGE_SIZE, Refusal};
use sequence::{Found, ImageFault};

/// For each place, whether an instruction begins there.
pub(crate) fn first_bytes(image: &[u8; IMAGE_SIZE]) -> Result<[bool; IMAGE_SIZE], ImageFault>
    ensures { result ≡ firsts (walk 0 false 0 image.now) (replicate 2048 false) }
{
    // Stays: a flag for each place of the image; without a heap there is no set of places.
    let mut firsts = [false; IMAGE_SIZE];
    for found in Walk::new(image) {
        firsts[usize::from(found?.place)] = true;
    }
    Ok(firsts)
}

/// Refuses the first instruction whose target is no first byte.
pub(crate) fn check(image: &[u8; IMAGE_SIZE], firsts: &[bool; IMAGE_SIZE]) -> Result<(), ImageFault>
    requires { is_ok (walk 0 false 0 image.now) ≡ true }
    ensures { result ≡ checked firsts.now (walk 0 false 0 image.now) }
{
    for found in Walk::new(image) {
        check_found(found?, firsts)?;
    }
    Ok(())
}

fn check_found(found: Found, firsts: &[bool; IMAGE_SIZE]) -> Result<(), ImageFault>
    requires { Sound found.instruction }
    ensures { result ≡ checked_one firsts.now found }
{
    match found.instruction.target() {
        Some(target) if !firsts[usize::from(target)] => {
            Err(ImageFault::new(Refusal::Target, found.place))
        }
        _ => Ok(()),
    }
}
