//! What an axis answers.

use isa::Refusal;

/// The answer to a received byte or a tick; `bytes_of` in `specs/` has its bytes.
#[derive(Clone, Copy, Debug, PartialEq, Eq)]
pub enum Answer {
    Silence,
    /// A byte of a message, sent back.
    Echo(u8),
    /// CR LF.
    Done,
    /// A position in nine columns, then CR LF.
    Position(i32),
    /// `?` and two digits, then CR LF.
    Refused(Refusal),
}
