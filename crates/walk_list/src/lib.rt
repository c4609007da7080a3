//! A walk list: the records of a tree in depth-first order, each with an escape, over its leaves by position.
//!
//! A walk goes over the list from its beginning: where a record's box misses the query it goes on by the record's
//! escape, and else to the next record. So it needs no stack, and what it reads next mostly lies beside what it read
//! last.
#![tactic(auto)]

mod best;
mod collecting;
mod list;
mod listing;
mod meeting;
mod mending;
mod moving;
mod nearest_hit;
mod overlapping;
mod reaching;
mod records;
mod sorting;
mod visits;

pub use list::WalkList;
pub use listing::flatten;
pub use nearest_hit::nearest_among;
pub use overlapping::overlaps;
pub use records::{Leaf, RUN, Record};

#[cfg(test)]
mod tests;
