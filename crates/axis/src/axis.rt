//! An axis over a store and a step port.

use crate::state::State;
use port::StepPort;
use store::Store;

/// An axis: a store by value, beside its own state. Its calls come with the rest of the axis; until then the parts work
/// on the state and a lent store.
#[derive(Drop)]
pub struct Axis<S: Store, P: StepPort> {
    pub(crate) store: S,
    pub(crate) state: State<P>,
}
