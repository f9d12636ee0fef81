//! Translates a text into the image of a board: the text on standard input, the 2,048 bytes on standard output, and with
//! `--labels` the label table in words on standard error.
//!
//! Refused, it writes `?`, two digits, a space, the line, a space and the column on standard output, the refusal in
//! words with the line itself on standard error, and ends with status 1.

#![tactic(auto)]

use anyhow::anyhow;
use isa::Refusal;
use programs::{Program, translation_of};
use sequence::{Label, TextFault};
use std::alloc::{AllocError, Global};
use std::env;
use std::process::ExitCode;
use translator::MOST_BYTES;

/// Whoever refuses has said so on standard output and standard error; the status is all that is left to say.
fn main(rt: HostRuntime) -> ExitCode {
    run(&rt).map_or(ExitCode::FAILURE, |()| ExitCode::SUCCESS)
}

fn run(rt: &HostRuntime) -> anyhow::Result<()> {
    let Some(with_labels) = wants_labels(rt) else {
        eprintln!(rt; "usage: seqtran [--labels] < TEXT > IMAGE")?;
        return Err(anyhow!("the arguments are wrong"));
    };
    let mut program = Program {
        name: "seqtran",
        rt,
        out: rt.stdout(),
    };
    let unreadable = TextFault::new(Refusal::Size, 0, 0);
    // One byte more than a text may have tells one that is too long.
    // Stays: a cast; a `usize` has no `u64::from`.
    let text = program.read(rt.stdin(), MOST_BYTES as u64 + 1, unreadable)?;
    match translation_of(text.as_slice()) {
        Ok(translation) => {
            program.write(&translation.image)?;
            if with_labels {
                print_labels(rt, &translation.labels)?;
            }
            Ok(())
        }
        Err(fault) => {
            explain(rt, text.as_slice(), fault)?;
            Err(program.answer(fault)?)
        }
    }
}

/// Whether the label table is asked for; nothing if the arguments are none that the program has.
fn wants_labels(rt: &HostRuntime) -> Option<bool> {
    let mut words = env::args(rt).ok()?.skip(1);
    let Some(word) = words.next() else {
        return Some(false);
    };
    (word.as_str() == "--labels" && words.next().is_none()).then_some(true)
}

fn print_labels(rt: &HostRuntime, labels: &[Label]) -> anyhow::Result<()> {
    for label in labels {
        eprintln!(rt; "{label}")?;
    }
    Ok(())
}

/// The refusal in words, the line itself and a caret under the column, as far as there are such.
fn explain(rt: &HostRuntime, text: &[u8], fault: TextFault) -> anyhow::Result<()> {
    let TextFault {
        refusal,
        line,
        column,
    } = fault;
    let why = refusal.sentence();
    if line == 0 {
        eprintln!(rt; "seqtran: {why}")?;
        return Ok(());
    }
    if column == 0 {
        eprintln!(rt; "seqtran: line {line}: {why}")?;
    } else {
        eprintln!(rt; "seqtran: line {line}, column {column}: {why}")?;
    }
    let shown = line_shown(rt.alloc(), text, line - 1)?;
    eprintln!(rt; "{shown}")?;
    if column != 0 {
        eprintln!(rt; "{:>column$}", "^")?;
    }
    Ok(())
}

/// The line after so many others. A byte that is not printable ASCII is shown as `?`, so that each byte has its column.
fn line_shown(heap: Global, text: &[u8], before: usize) -> Result<String, AllocError> {
    text.split(|b| *b == b'\n')
        .nth(before)
        .unwrap_or_default()
        .iter()
        .map(|b| if (b' '..=b'~').contains(b) {
            char::from(*b)
        } else {
            '?'
        })
        .collect(heap)
}
