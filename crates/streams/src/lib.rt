//! Whole files and whole texts over devices that move them in pieces.
//!
//! A piece may be as short as one byte. What these calls promise does not depend on how the pieces fell.
#![tactic(auto)]

mod answerer;
mod answering;
mod fetching;
mod loads;
mod session;
mod writing;

pub use answerer::{Answerer, Ended, Stop};
pub use answering::{Answered, answer_lines};
pub use fetching::fetch_all;
pub use loads::{FILE_PIECE, LoadFault, Loaded, PIECE};
pub use writing::write_all;

#[cfg(test)]
mod tests;
