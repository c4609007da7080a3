//! Why a line of a script is refused.

/// Why a line of a script is refused.
#[derive(Clone, Copy, Debug, PartialEq, Eq, Drop)]
pub enum LineFault {
    /// The first word is no keyword.
    UnknownWord,
    /// The keyword takes another count of further words.
    WrongCount,
    /// A word does not have the form of its number.
    NotANumber,
    /// A number has more than 24 digits from the first that is not `0` on, a decimal's exponent aside.
    NumberTooLong,
    /// A coordinate is too far out.
    OutOfRange,
    /// The mesh has no vertex of that number. Only the world refuses so.
    NoSuchVertex,
    /// The tree has no inner node of that number. Only the world refuses so.
    NoSuchNode,
    /// The octree has no level of that number. Only the world refuses so.
    NoSuchLevel,
    /// The line has more than 1,000 bytes.
    LineTooLong,
}
