//! A line of a text taken apart, and an instruction as lines and messages write it.

#![tactic(auto)]

mod instructions;
mod line;

pub use instructions::{Front, instruction};
pub use line::{first_bad, parse};
