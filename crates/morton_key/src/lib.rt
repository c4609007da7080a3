//! Keys that put triangles in the order of a curve through the world, and the measure by which two keys are near.
//!
//! A key is the Morton code of the centre of a triangle's box, and the triangle's number, which parts equal codes.
#![tactic(auto)]

mod agreement;
mod interleaving;
mod keys;
mod ordering;

pub use agreement::{common_prefix, delta};
pub use interleaving::code;
pub use keys::{Key, LEVELS, POSITION_WIDTH, WIDTH};
pub use ordering::{order, unsorted};

#[cfg(test)]
mod tests;
