//! What comes of an attempt to load a whole text.

/// The most bytes of a script that are asked for at a time.
pub const PIECE: usize = 4096;

/// The most bytes of a file that are asked for at a time. Each piece may open the file anew, so it is a large one.
pub const FILE_PIECE: usize = 65_536;

/// A whole text, or word that it has more bytes than the limit.
#[derive(Debug, Drop)]
pub enum Loaded {
    Whole(Vec<u8>),
    TooLong,
}

/// Why a text was not loaded.
#[derive(Clone, Copy, Debug, PartialEq, Eq)]
pub enum LoadFault {
    /// The device failed.
    Read,
    /// Memory ran out.
    Memory,
}
