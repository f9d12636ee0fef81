//! Runs a table of texts against the translator: a case a line on standard input, the answers on standard output.
//!
//! A case is `NAME | WORD WORD ..`. A word is `image=N`, which gives the image N bytes, `table=N`, which gives the label
//! table N records, or a piece of the text in double quotes, `"PIECE"*N` for N times the same. A piece has the escapes
//! `\n`, `\t`, `\r`, `\"`, `\\` and `\xHH`.
//!
//! An accepted text goes on to listing, image and listing: the program stops if these two images or listings differ.

#![tactic(auto)]

use anyhow::{Context, anyhow, ensure};
use isa::{IMAGE_SIZE, MARK};
use programs::{listing_of, translation_of};
use sequence::{Label, Name};
use std::alloc::Global;
use std::io;
use translator::{MOST_LABELS, Translated, translate};

/// How many places a row shows.
const ROW: usize = 16;

/// What stands in the image and in the table before the translator writes.
const UNTOUCHED: u8 = 170;

const UNTOUCHED_LABEL: Label = Label {
    name: [UNTOUCHED; 8],
    line: 77_777,
    place: 55_555,
};

#[derive(Drop)]
struct Case {
    text: Vec<u8>,
    image: usize,
    table: usize,
}

/// Where a character of a case stands. A quote after a backslash opens and closes nothing.
#[derive(Clone, Copy)]
enum Spot {
    /// Outside the quotes, where a space ends a word.
    Outside,
    OutsideEscaped,
    Quoted,
    QuotedEscaped,
}

impl Spot {
    fn is_outside(self) -> bool {
        matches!(self, Spot::Outside | Spot::OutsideEscaped)
    }

    /// Where the character after this one of a word stands.
    fn after(self, c: char) -> Spot {
        match (self, c) {
            (Spot::Outside, '\\') => Spot::OutsideEscaped,
            (Spot::Outside, '"') => Spot::Quoted,
            (Spot::Outside | Spot::OutsideEscaped, _) => Spot::Outside,
            (Spot::Quoted, '\\') => Spot::QuotedEscaped,
            (Spot::Quoted, '"') => Spot::Outside,
            (Spot::Quoted | Spot::QuotedEscaped, _) => Spot::Quoted,
        }
    }
}

/// How far a piece is read.
#[derive(Clone, Copy)]
enum Reading {
    Plain,
    Escape,
    Hex,
    /// The first digit was read.
    HexDigit(u8),
}

fn main(rt: HostRuntime) -> anyhow::Result<()> {
    run(&rt)
}

fn run(rt: &HostRuntime) -> anyhow::Result<()> {
    let table = io::read_to_string(rt.alloc(), rt.stdin())?;
    // Stays: the other table's program has this loop too; one for both, given the separator and a closure, would be as long.
    for line in table.lines() {
        let (name, words) = line.split_once(" | ").context("a case has no name")?;
        println!(rt; "== {name}")?;
        show(rt, &case_of(rt.alloc(), words)?)?;
    }
    Ok(())
}

fn case_of(heap: Global, words: &str) -> anyhow::Result<Case> {
    let mut case = Case {
        text: Vec::new(heap),
        image: IMAGE_SIZE,
        table: MOST_LABELS,
    };
    let mut word = String::new(heap);
    let mut spot = Spot::Outside;
    for c in words.chars() {
        if c == ' ' && spot.is_outside() {
            change(heap, &mut case, word.as_str())?;
            word.clear();
        } else {
            word.push(c)?;
            spot = spot.after(c);
        }
    }
    change(heap, &mut case, word.as_str())?;
    Ok(case)
}

fn change(heap: Global, case: &mut Case, word: &str) -> anyhow::Result<()> {
    if let Some(n) = word.strip_prefix("image=") {
        case.image = n.parse::<usize>()?;
        return Ok(());
    }
    if let Some(n) = word.strip_prefix("table=") {
        case.table = n.parse::<usize>()?;
        return Ok(());
    }
    let (piece, rest) = word
        .strip_prefix("\"")
        .context("a word is none of those there are")?
        .rsplit_once("\"")
        .context("a piece without its closing quote")?;
    let times = match rest.strip_prefix("*") {
        Some(n) => n.parse::<u16>()?,
        None if rest.is_empty() => 1,
        None => return Err(anyhow!("a piece with more after it than its times")),
    };
    let bytes = piece_of(heap, piece)?;
    for _ in 0..times {
        case.text.extend_from_slice(bytes.as_slice())?;
    }
    Ok(())
}

/// The bytes of a piece, without its escapes.
fn piece_of(heap: Global, piece: &str) -> anyhow::Result<Vec<u8>> {
    let mut bytes = Vec::new(heap);
    let mut reading = Reading::Plain;
    for b in piece.bytes() {
        reading = match reading {
            Reading::Plain if b == b'\\' => Reading::Escape,
            Reading::Plain => {
                bytes.push(b)?;
                Reading::Plain
            }
            Reading::Escape if b == b'x' => Reading::Hex,
            Reading::Escape => {
                bytes.push(escaped(b)?)?;
                Reading::Plain
            }
            Reading::Hex => Reading::HexDigit(hex_digit(b)?),
            Reading::HexDigit(high) => {
                bytes.push((high << 4) | hex_digit(b)?)?;
                Reading::Plain
            }
        };
    }
    match reading {
        Reading::Plain => Ok(bytes),
        _ => Err(anyhow!("an escape without its end")),
    }
}

fn escaped(b: u8) -> anyhow::Result<u8> {
    match b {
        b'n' => Ok(b'\n'),
        b't' => Ok(b'\t'),
        b'r' => Ok(b'\r'),
        b'"' | b'\\' => Ok(b),
        _ => Err(anyhow!("an escape is none of those there are")),
    }
}

// Stays: by hand; the library's `to_digit` takes digits in upper case too.
fn hex_digit(b: u8) -> anyhow::Result<u8> {
    match b {
        b'0'..=b'9' => Ok(b - b'0'),
        b'a'..=b'f' => Ok(b - b'a' + 10),
        _ => Err(anyhow!("a byte that is no hexadecimal digit")),
    }
}

fn show(rt: &HostRuntime, case: &Case) -> anyhow::Result<()> {
    let mut image = vec![in rt.alloc(); UNTOUCHED; case.image]?;
    let mut labels = vec![in rt.alloc(); UNTOUCHED_LABEL; case.table]?;
    match translate(
        case.text.as_slice(),
        image.as_mut_slice(),
        labels.as_mut_slice(),
    ) {
        Ok(counts) => {
            show_labels(rt, counts, labels.as_slice())?;
            show_rows(rt, image.as_slice())?;
            go_round(rt.alloc(), image.as_slice())
        }
        Err(fault) => {
            println!(rt; "{fault}")?;
            ensure!(
                image.iter().all(|b| *b == UNTOUCHED),
                "a refusal changed the image"
            );
            Ok(())
        }
    }
}

/// Shows the labels, and checks the records past them.
fn show_labels(rt: &HostRuntime, counts: Translated, labels: &[Label]) -> anyhow::Result<()> {
    println!(rt; "lines={} labels={}", counts.lines, counts.labels)?;
    for label in labels.iter().take(counts.labels) {
        println!(rt;
            "label {} line {} place {}",
            Name(label.name),
            label.line,
            label.place
        )?;
    }
    ensure!(
        labels
            .iter()
            .skip(counts.labels)
            .all(|label| *label == UNTOUCHED_LABEL),
        "a record past the labels was changed"
    );
    Ok(())
}

/// Shows the rows of an image that have a byte other than 255.
fn show_rows(rt: &HostRuntime, image: &[u8]) -> anyhow::Result<()> {
    for (place, row) in (0..IMAGE_SIZE).step_by(ROW).zip(image.chunks(ROW)) {
        if row.iter().any(|b| *b != MARK) {
            print!(rt; "{place}:")?;
            for b in row {
                print!(rt; " {b}")?;
            }
            println!(rt)?;
        }
    }
    Ok(())
}

/// Lists an image, translates the listing and lists that image: both images and both listings are the same.
fn go_round(heap: Global, image: &[u8]) -> anyhow::Result<()> {
    let listing = listing_of(heap, image)?.context("an image of the translator is not listed")?;
    let again = translation_of(listing.as_slice()).context("a listing is not translated")?;
    ensure!(
        again.image.as_slice() == image,
        "the listing has another image"
    );
    let relisting = listing_of(heap, again.image.as_slice())?.context(
        "an image of the translator is not listed",
    )?;
    ensure!(
        relisting.as_slice() == listing.as_slice(),
        "the listing's image has another listing"
    );
    Ok(())
}
