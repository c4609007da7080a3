//! The script that asks a world, the large workload, and the run that does all that the program does.
//!
//! What a run writes is a function of its words, the mesh file and the script, stated in `specs/Outputs`; `run` has the
//! headline as a clause.
#![tactic(auto)]

mod desk;
mod limits;
mod passes;
mod refusals;
mod report;
mod runs;
mod stages;
mod status;
mod steps;
mod sums;
mod workload;

pub use command_line::{Build, Input, Plan, WordsFault, read_words};
pub use report::grid_report;
pub use runs::run;
pub use status::Status;
pub use world_index::World;

#[cfg(test)]
mod tests;
