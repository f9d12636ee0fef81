//! The instruction set of the SMC-25 family: places, refusals, instructions and their bytes.
//!
//! Everything above (translator, lister, axis) takes letters, lengths and operand ranges from `look_up` and from
//! nowhere else.

#![tactic(auto)]

mod codec;
mod instruction;
mod place;
mod refusal;
mod shape;
mod table;
mod words;

pub use codec::{Code, MARK, decode, encode};
pub use instruction::{Action, Direction, Instruction};
pub use place::{IMAGE_SIZE, PAGE_SIZE, is_user_place, page_of};
pub use refusal::Refusal;
pub use shape::{Operands, Order, Shape};
pub use table::{Entry, Mismatch, look_up, shape_of};
