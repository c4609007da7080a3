//! Why arrays are no mesh.

use thiserror::Error;

/// The first fault of arrays that are no mesh, in the order in which the variants stand here. A place is a position,
/// from 0.
#[derive(Clone, Copy, Debug, PartialEq, Eq, Drop, Error)]
pub enum ArrayFault {
    /// There are more than `MOST_POINTS` points.
    #[error("too many points")]
    TooManyPoints,
    /// There are more than `MOST_FACES` faces.
    #[error("too many faces")]
    TooManyFaces,
    /// There are more or fewer groups of faces than faces.
    #[error("not one group for each face")]
    NotOneGroupEach,
    /// The point at this place, and none before it, is outside the world.
    #[error("point {point} is outside the world")]
    Outside { point: usize },
    /// The face at this place, and none before it, names a point that is not there.
    #[error("face {face} names no such point")]
    NoSuchPoint { face: usize },
    /// The face at this place, and none before it, is in a group that is not there.
    #[error("face {face} is in no such group")]
    NoSuchGroup { face: usize },
}
