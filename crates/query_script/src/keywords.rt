//! The words that a line may begin with.

/// The word that a line begins with, which says what the further words are.
#[derive(Clone, Copy, Debug, PartialEq, Eq, Drop)]
pub enum Keyword {
    /// `box`, and the coordinates of two corners.
    Box,
    /// `seg`, and the coordinates of two points.
    Seg,
    /// `move`, the number of a vertex and the coordinates of a point.
    Move,
    /// `refit`, and nothing more.
    Refit,
    /// `rebuild`, and nothing more.
    Rebuild,
    /// `node`, and a number.
    Node,
    /// `cells`, and a number.
    Cells,
    /// `groups`, and nothing more.
    Groups,
    /// `stat`, and nothing more.
    Stat,
    /// `work`, and nothing more.
    Work,
}
