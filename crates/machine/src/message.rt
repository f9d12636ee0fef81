//! What a message asks.

use isa::Action;

/// A message that was read; `Action::Wait` is none.
#[derive(Clone, Copy, Debug, PartialEq, Eq)]
pub enum Message {
    /// `@`: ends a run and slows a motion.
    SoftStop,
    /// `G`: starts a run at a place.
    Go(u16),
    Act(Action),
}
