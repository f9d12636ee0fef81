//! That the calls succeed.

use crate::{Program, listing_of, translation_of};
use isa::{IMAGE_SIZE, Refusal};
use sequence::ImageFault;
use std::test::Fail;

#[test]
fn a_text_goes_round(rt: HostRuntime) -> Result<(), Fail> {
    let text = "at 0\nback: Z\nJ back 2\n";
    let translation = translation_of(text.as_bytes())?;
    assert_eq!(rt; translation.image.len(), IMAGE_SIZE);
    assert_eq!(rt; translation.labels.len(), 1);
    assert_eq!(rt; translation.lines, 2);
    let listing = listing_of(rt.alloc(), translation.image.as_slice())??;
    assert_eq!(rt; listing.as_slice(), b"at 0\n0 Z\n1 J 0 2\n".as_slice());
    Ok(())
}

#[test]
fn what_is_read_is_written(rt: HostRuntime) -> Result<(), Fail> {
    let mut program = Program {
        name: "tests",
        rt: &rt,
        out: Vec::new(rt.alloc()),
    };
    let unreadable = ImageFault::new(Refusal::Size, 0);
    let bytes = program.read(b"sequence".as_slice(), 5, unreadable)?;
    program.write(bytes.as_slice())?;
    assert_eq!(rt; program.out.as_slice(), b"seque".as_slice());
    Ok(())
}

#[test]
fn a_refusal_is_answered(rt: HostRuntime) -> Result<(), Fail> {
    let mut program = Program {
        name: "tests",
        rt: &rt,
        out: Vec::new(rt.alloc()),
    };
    program.answer(ImageFault::new(Refusal::Area, 193))?;
    assert_eq!(rt; program.out.as_slice(), b"?08 193\n".as_slice());
    Ok(())
}
