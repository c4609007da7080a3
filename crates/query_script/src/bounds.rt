//! How far out a coordinate may be.

/// How far out a coordinate may be.
#[derive(Clone, Copy, Debug, PartialEq, Eq, Drop)]
pub enum Bounds {
    /// As far as a queried box may reach: from `-REACH` to `REACH`.
    Reach,
    /// In the world: from `-HALF` to `HALF - 1`.
    World,
}
