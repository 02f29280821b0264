//! An event of a column, with its position.
use crate::event::Event;

/// An event of a column, with its position among all events of its list or piece, from 0.
#[derive(Clone, Copy)]
pub struct Placed {
    /// The position.
    pub at: u16,
    /// The event.
    pub event: Event,
}
