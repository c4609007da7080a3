//! Where a segment meets a triangle and where it enters a box, exactly, as a fraction of the segment.
//!
//! Everything is whole numbers. The world is small enough that each determinant of differences fits an `i64`; two
//! fractions in lowest terms are compared by products in `i128`, and two entries into boxes, which walks compare often,
//! by products of two differences. Nothing here takes memory.
#![tactic(auto)]

mod arithmetic;
mod crossings;
mod entering;
mod fraction;
mod limits;
mod line;
mod lines;
mod lowest;
mod meeting;
mod order;
mod products;
mod stretch;
mod vectors;

pub use entering::{enters, entry};
pub use fraction::Frac;
pub use limits::reach;
pub use line::{Axis, Line, PRODUCT, Passage, Place, SCALE, WHOLE};
pub use lines::{line_of, passage};
pub use meeting::hit;
pub use order::cmp;
pub use stretch::Entry;

#[cfg(test)]
mod tests;
