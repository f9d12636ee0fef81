//! A text and its image, the way back from the listing, and a listing that was altered by hand.

use anyhow::{Context, bail};
use programs::{Translation, translation_of};
use sequence::TextFault;

/// To and fro three times, with pauses.
const SEQUENCE: &str = "at 0\nO 0\nback: R 1200\nW 0\nR -1200\nW 43\nJ back 2\n";

/// The sequence and its label; the image that it yields.
pub fn show_translation(rt: &HostRuntime) -> anyhow::Result<Vec<u8>> {
    println!(rt; "A sequence as a person writes it:")?;
    print!(rt; "{SEQUENCE}")?;
    let answer = translation_of(SEQUENCE.as_bytes());
    let Translation { image, labels, .. } = answer.context("the sequence is refused")?;
    println!(rt; "\nIts label:")?;
    for label in labels.as_slice() {
        println!(rt; "{label}")?;
    }
    Ok(image.to_vec(rt.alloc())?)
}

/// Whether the listing yields the image again.
pub fn show_way_back(rt: &HostRuntime, image: &[u8], listing: &str) -> anyhow::Result<()> {
    println!(rt; "\nThe listing translated:")?;
    match translation_of(listing.as_bytes()) {
        Ok(again) => {
            let answer = if again.image.as_slice() == image {
                "the same image"
            } else {
                "another image"
            };
            println!(rt; "{answer}")?;
            Ok(())
        }
        Err(fault) => show_fault(rt, listing, fault),
    }
}

/// The listing with a wait put in, and why it is refused.
pub fn show_stale(rt: &HostRuntime, listing: &str) -> anyhow::Result<()> {
    let (before, after) = listing
        .split_once("4 R 1200\n")
        .context("the listing has no such line")?;
    let altered = format!(in rt.alloc(); "{before}4 R 1200\nW 43\n{after}")?;
    println!(rt;
        "\nThe listing with a wait put in by hand after place 4, the written places kept:"
    )?;
    rt.print(altered.as_str())?;
    println!(rt)?;
    let Err(fault) = translation_of(altered.as_bytes()) else {
        bail!("the altered listing is accepted");
    };
    show_fault(rt, altered.as_str(), fault)
}

fn show_fault(rt: &HostRuntime, text: &str, fault: TextFault) -> anyhow::Result<()> {
    let TextFault {
        refusal,
        line,
        column,
    } = fault;
    println!(rt;
        "refused with {} at line {line}, column {column}: {}",
        refusal.number(),
        refusal.sentence()
    )?;
    if let Some(shown) = text.lines().nth(line.saturating_sub(1)) {
        println!(rt; "    {shown}")?;
    }
    Ok(())
}
