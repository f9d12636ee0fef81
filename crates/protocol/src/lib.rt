//! The line protocol of an axis: what it hears, and what a message asks.

#![tactic(auto)]

mod gathered;
mod reading;
mod receiver;

pub use reading::read_message;
pub use receiver::Receiver;
