//! Whole runs over devices in memory.

mod command_words;
mod devices;
mod failing;
mod large_workload;
mod scripts;
mod sizes;
