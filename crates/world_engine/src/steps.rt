//! The steps of the large workload's report.

/// Asks in turn, and what is told of their replies.
#[derive(Clone, Copy, Drop)]
pub enum Step {
    /// The counts of the world, told as to a script.
    Counts,
    /// One pass, told in one line.
    Pass,
    /// The moves, of whose replies nothing is told.
    Moves,
    /// A build, of whose reply nothing is told.
    Rebuild,
}
