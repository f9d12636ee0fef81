//! Step ports: what an axis drives a motor by.

#![tactic(auto)]

mod phase;
mod pulse;
mod step;

pub use phase::{PhasePort, Row};
pub use pulse::PulsePort;
pub use step::{Counts, StepPort};
