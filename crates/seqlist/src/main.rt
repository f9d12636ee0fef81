//! Lists a board's image: 2,048 bytes on standard input, the listing on standard output.
//!
//! Refused, it writes `?`, two digits, a space and the place on standard output, a sentence on standard error, and ends
//! with status 1.

#![tactic(auto)]

use isa::{IMAGE_SIZE, Refusal};
use programs::{Program, listing_of};
use sequence::ImageFault;
use std::process::ExitCode;

/// Whoever refuses has said so on standard output and standard error; the status is all that is left to say.
fn main(rt: HostRuntime) -> ExitCode {
    run(&rt).map_or(ExitCode::FAILURE, |()| ExitCode::SUCCESS)
}

fn run(rt: &HostRuntime) -> anyhow::Result<()> {
    let mut program = Program {
        name: "seqlist",
        rt,
        out: rt.stdout(),
    };
    let unreadable = ImageFault::new(Refusal::Size, 0);
    // One byte more than an image has tells one that is too long.
    // Stays: a cast; a `usize` has no `u64::from`.
    let image = program.read(rt.stdin(), IMAGE_SIZE as u64 + 1, unreadable)?;
    match listing_of(rt.alloc(), image.as_slice())? {
        Ok(listing) => program.write(listing.as_slice()),
        Err(fault) => {
            eprintln!(rt;
                "seqlist: place {}: {}",
                fault.place,
                fault.refusal.sentence()
            )?;
            Err(program.answer(fault)?)
        }
    }
}
