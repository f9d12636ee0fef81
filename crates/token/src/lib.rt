//! Lines and tokens of a sequence text, numbers and names. Tokens borrow their bytes from the text.

#![tactic(auto)]

mod lines;
mod scanner;
mod words;

pub use lines::{Lines, line_len};
pub use scanner::{Scanner, Spot};
pub use words::{Token, classify, is_at, label_of, name_of, number_of, place_of, unsigned_of};
