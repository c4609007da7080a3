//! The numbers that bound what is accepted.

/// The most digits of a number, leading zeros counted.
pub const MOST_DIGITS: usize = 6;

/// The most workers that may build a world.
pub const MOST_WORKERS: u32 = 64;

/// How many there are where no word says so.
pub const WORKERS: u32 = 4;

/// Grid steps to one unit of the mesh and of the script, where no word says so.
pub const UNIT: u32 = 64;

/// No list of more words is accepted: there are at most four items, each of at most two words.
pub const MOST_WORDS: usize = 8;
