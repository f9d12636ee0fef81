//! Runs a table of images against the lister: a case a line on standard input, its listing or refusal on standard output.
//!
//! A case is `NAME | ITEM; ITEM; ..`. The items change an image of 2,048 bytes of 255, in their order: `len N` gives it
//! N bytes, `fill B` makes every byte B, `P: B B ..` puts bytes from place P on, `repeat N from P: B B ..` puts them N
//! times; `room N` gives the output N bytes. Each listing is translated again, and its image compared.

#![tactic(auto)]

use anyhow::{Context, ensure};
use isa::{IMAGE_SIZE, MARK};
use lister::{LISTING_ROOM, list};
use programs::translation_of;
use std::alloc::Global;
use std::io;

/// What stands in the output before the lister writes.
const UNTOUCHED: u8 = 170;

#[derive(Drop)]
struct Case {
    image: Vec<u8>,
    room: usize,
}

fn main(rt: HostRuntime) -> anyhow::Result<()> {
    run(&rt)
}

fn run(rt: &HostRuntime) -> anyhow::Result<()> {
    let table = io::read_to_string(rt.alloc(), rt.stdin())?;
    // Stays: the other table's program has this loop too; one for both, given the separator and a closure, would be as long.
    for line in table.lines() {
        let (name, items) = line.split_once(" |").context("a case has no name")?;
        println!(rt; "== {name}")?;
        show(rt, &case_of(rt.alloc(), items)?)?;
    }
    Ok(())
}

fn case_of(heap: Global, items: &str) -> anyhow::Result<Case> {
    let image = vec![in heap; MARK; IMAGE_SIZE]?;
    let mut case = Case {
        image,
        room: LISTING_ROOM,
    };
    for item in items.split(';') {
        change(heap, &mut case, item.trim())?;
    }
    Ok(case)
}

fn change(heap: Global, case: &mut Case, item: &str) -> anyhow::Result<()> {
    if item.is_empty() {
        return Ok(());
    }
    if let Some(n) = item.strip_prefix("len ") {
        case.image = vec![in heap; MARK; n.parse::<usize>()?]?;
        return Ok(());
    }
    if let Some(n) = item.strip_prefix("room ") {
        case.room = n.parse::<usize>()?;
        return Ok(());
    }
    if let Some(b) = item.strip_prefix("fill ") {
        case.image.fill(b.parse::<u8>()?);
        return Ok(());
    }
    let (head, bytes) = item
        .split_once(":")
        .context("an item is none of those there are")?;
    match head.strip_prefix("repeat ") {
        Some(rest) => {
            let (times, place) = rest
                .split_once(" from ")
                .context("a repeat without its place")?;
            put(
                case.image.as_mut_slice(),
                place.parse::<usize>()?,
                times.parse::<u16>()?,
                bytes,
            )
        }
        None => put(case.image.as_mut_slice(), head.parse::<usize>()?, 1, bytes),
    }
}

/// Puts bytes into an image, several times in a row.
fn put(image: &mut [u8], place: usize, times: u16, bytes: &str) -> anyhow::Result<()> {
    let mut places = image.iter_mut().skip(place);
    for _ in 0..times {
        for b in bytes.split_whitespace() {
            let place = places.next().context("a byte past the image's end")?;
            *place = b.parse::<u8>()?;
        }
    }
    Ok(())
}

fn show(rt: &HostRuntime, case: &Case) -> anyhow::Result<()> {
    let mut out = vec![in rt.alloc(); UNTOUCHED; case.room]?;
    let written = match list(case.image.as_slice(), out.as_mut_slice()) {
        Ok(len) => {
            comes_back(&out.as_slice()[0..len], case.image.as_slice())?;
            len
        }
        Err(fault) => {
            println!(rt; "{fault}")?;
            0
        }
    };
    ensure!(
        out.iter().skip(written).all(|b| *b == UNTOUCHED),
        "the output past the listing was changed"
    );
    out.truncate(written);
    rt.write_all(out.as_slice())?;
    Ok(())
}

/// The listing is a text that is translated into the same image.
fn comes_back(listing: &[u8], image: &[u8]) -> anyhow::Result<()> {
    let again = translation_of(listing).context("the listing is refused as a text")?;
    ensure!(
        again.image.as_slice() == image,
        "the listing has another image"
    );
    Ok(())
}
