//! The words of the command line, read as the plan of a run.
//!
//! By the definition the words are cut from left to right into items, and the items make a plan where they keep a few
//! rules. Every other list is refused, whatever is wrong with it. The code hands the words to one command of `clap`, and
//! is proved to come to the same.
#![tactic(auto)]

mod command;
mod fault;
mod given;
mod limits;
mod place;
mod plan;
mod read;
mod values;

pub use fault::WordsFault;
pub use limits::MOST_WORKERS;
pub use plan::{Build, Input, Plan};
pub use read::read_words;

#[cfg(test)]
mod tests;
