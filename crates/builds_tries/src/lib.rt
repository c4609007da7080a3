//! Whole runs tried: both builds side by side, the workers that runs start, devices that fail, and the largest texts.
//!
//! Nothing stands here but tests. No clause of a run tells how many threads built, so runs are tried at a gate that
//! tells.
#![tactic(auto)]

#[cfg(test)]
mod failing_devices;
#[cfg(test)]
mod gated_runs;
#[cfg(test)]
mod largest_runs;
#[cfg(test)]
mod same_trees;
#[cfg(test)]
mod words;
