//! What is asked of an axis.

/// A call. A received byte and a tick are lent so many bytes for what is answered.
#[derive(Clone, Copy, Debug, PartialEq, Eq)]
pub enum Call {
    /// A run is started at a place.
    Start(u16),
    Receive { byte: u8, room: usize },
    Tick { input: u8, room: usize },
}
