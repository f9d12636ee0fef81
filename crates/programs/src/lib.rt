//! What the programs share: listing and translating with memory of their own, reading the input, writing the output.

#![tactic(auto)]

mod conversion;
mod streams;

pub use conversion::{Translation, listing_of, translation_of};
pub use streams::Program;

#[cfg(test)]
mod tests;
