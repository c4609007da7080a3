//! The numbers that bound a run.

/// The most bytes of a script.
pub const SCRIPT_MOST: usize = 16_777_216;
