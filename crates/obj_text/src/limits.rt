//! The numbers that fix how large a mesh and its text may be.

/// A mesh has at most this many points, 2^20.
pub const MOST_POINTS: usize = 1_048_576;

/// A mesh has at most this many faces, 2^20.
pub const MOST_FACES: usize = 1_048_576;

/// A mesh text has at most this many bytes, 256 MB.
pub const MOST_BYTES: usize = 268_435_456;

/// A number of a reference is cut off at this one, which names no vertex: a text has fewer bytes.
pub const GREATEST_NUMBER: u32 = 4_294_967_295;

/// The mesh of the large workload has at least this many squares along each side.
pub const LEAST_GRID: u32 = 2;

/// It has at most this many.
pub const MOST_GRID: u32 = 512;
