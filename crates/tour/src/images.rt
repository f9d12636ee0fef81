//! A board's image, its listing, and damaged copies of it.

use anyhow::{Context, bail};
use programs::listing_of;
use std::alloc::AllocError;

/// How many bytes the sequence has.
const SHOWN: usize = 22;

/// The image's first bytes and its listing, which is handed back.
pub fn show_image(rt: &HostRuntime, image: &[u8]) -> anyhow::Result<String> {
    println!(rt;
        "\nThe image of a board has 2,048 bytes. This one begins so, and all the others are 255:"
    )?;
    show_bytes(rt, image)?;
    println!(rt; "\nIts listing:")?;
    let bytes = listing_of(rt.alloc(), image)?.context("the image is refused")?;
    let listing = String::from_utf8(bytes)
        .ok()
        .context("the listing is no text")?;
    rt.print(listing.as_str())?;
    Ok(listing)
}

pub fn show_damaged(rt: &HostRuntime, image: &[u8]) -> anyhow::Result<()> {
    println!(rt; "\nThe same image with a small k in place of the O at place 0:")?;
    show_refusal(rt, changed(rt, image, 0, 107)?.as_slice())?;
    println!(rt; "\nWith the jump's target one place on, inside an instruction:")?;
    show_refusal(rt, changed(rt, image, 19, 5)?.as_slice())?;
    println!(rt; "\nWith a byte in the reserved place 200:")?;
    show_refusal(rt, changed(rt, image, 200, 0)?.as_slice())
}

/// The image with another byte at a place.
fn changed(rt: &HostRuntime, image: &[u8], place: usize, byte: u8) -> Result<Vec<u8>, AllocError> {
    let mut copy = image.to_vec(rt.alloc())?;
    if let Some(b) = copy.get_mut(place) {
        *b = byte;
    }
    Ok(copy)
}

fn show_bytes(rt: &HostRuntime, image: &[u8]) -> anyhow::Result<()> {
    print!(rt; "   ")?;
    for b in image.iter().take(SHOWN) {
        print!(rt; " {b}")?;
    }
    println!(rt)?;
    Ok(())
}

fn show_refusal(rt: &HostRuntime, image: &[u8]) -> anyhow::Result<()> {
    let Err(fault) = listing_of(rt.alloc(), image)? else {
        bail!("the damaged image is accepted");
    };
    println!(rt;
        "refused with {} at place {}: {}",
        fault.refusal.number(),
        fault.place,
        fault.refusal.sentence()
    )?;
    Ok(())
}
