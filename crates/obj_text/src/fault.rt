//! Why a text is no mesh.

use thiserror::Error;

/// Why a line has a fault. In one line the first of these that holds is answered, words from left to right.
#[derive(Clone, Copy, Debug, PartialEq, Eq, Drop, Error)]
pub enum Why {
    /// A coordinate is no decimal.
    #[error("not a number")]
    NotANumber,
    /// A coordinate has more than 24 significant digits.
    #[error("number too long")]
    NumberTooLong,
    /// A coordinate's grid value is not in the world.
    #[error("outside the world")]
    Outside,
    /// Fewer than three words stand behind `v` or `f`.
    #[error("too few words")]
    TooFewWords,
    /// A word behind `f` is no reference.
    #[error("bad reference")]
    BadReference,
    /// A reference names no vertex: zero, past the last `v` line of the text, or too far back.
    #[error("no such vertex")]
    NoSuchVertex,
    /// This would be one vertex more than `MOST_POINTS`.
    #[error("too many vertices")]
    TooManyVertices,
    /// With this line's triangles there would be more than `MOST_FACES`.
    #[error("too many triangles")]
    TooManyTriangles,
}

/// Why a text gave no mesh.
#[derive(Clone, Copy, Debug, PartialEq, Eq, Drop, Error)]
pub enum MeshFault {
    /// The first line that has a fault, counted from 1. A joined line has the number of its first line.
    #[error("mesh line {line}: {why}")]
    Line { line: u32, why: Why },
    /// Memory ran out.
    #[error("out of memory")]
    Memory,
}
