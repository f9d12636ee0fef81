//! The plain parts of an axis and of what is asked of it. A run is generic in its points: that of an axis has places, and
//! the text read line by line, which stands in `specs/` alone, has lines and marks. The machine itself stands in `specs/`.

#![tactic(auto)]

mod answer;
mod call;
mod message;
mod run;

pub use answer::Answer;
pub use call::Call;
pub use message::Message;
pub use run::{Course, Ending, Fault, Run};
