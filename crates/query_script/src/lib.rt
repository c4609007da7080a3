//! The lines of a script, read, and the texts of their replies.
//!
//! A line is refused for the first thing that is wrong with it, from left to right; else it asks something. What the
//! world replies is written as one line of words.
#![tactic(auto)]

mod asks;
mod bounds;
mod faults;
mod fractions;
mod groups;
mod keywords;
mod limits;
mod lines;
mod numbers;
mod plain_lines;
mod reasons;
mod replies;
mod texts;

pub use asks::Ask;
pub use faults::LineFault;
pub use fractions::HitFraction;
pub use groups::{GroupCount, GroupList};
pub use lines::read_line;
pub use reasons::{fault_text, why_text};
pub use replies::Reply;
pub use texts::{is_refused, reply_text};

#[cfg(test)]
mod tests;
