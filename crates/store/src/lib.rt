//! Stores: where a board keeps its image.

#![tactic(auto)]

mod edit;
mod eeprom;
mod store;

pub use edit::Edit;
pub use eeprom::Eeprom;
pub use store::{Store, StoreFault};
