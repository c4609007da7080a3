//! A fast build of the radix tree: each node's range and split found alone, and the boxes fitted by fork and join.
//!
//! The two neighbours of a number tell which way its range grows, so no node waits for another and each can be found in
//! any thread. The nodes below a node's two children stand apart in the list, so each half can be lent to a thread.
#![tactic(auto)]

mod building;
mod finding;
mod fitting;
mod handing_up;
mod inputs;
mod links;
mod ordering;
mod packing;
mod ranges;
mod searching;
mod tri_boxes;
mod ways;

pub use building::tree_by_threads;
pub use finding::{LEAST_LIST, find, spans};
pub use fitting::fit_joined;
pub use handing_up::build;
pub use links::{Links, links_of};
pub use ordering::order_by_threads;
pub use ranges::Span;
pub use tri_boxes::boxes_of;

#[cfg(test)]
mod tests;
