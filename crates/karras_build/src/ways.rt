//! The two ways that a search may go from a position.

/// A way along a list of keys.
#[derive(Clone, Copy)]
pub(crate) enum Way {
    /// To greater positions.
    Up,
    /// To lesser positions.
    Down,
}
