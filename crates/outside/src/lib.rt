//! The outside world as the product meets it: files by name, bytes that come, bytes that go, and a gate for workers.
//!
//! Each device tells, for proofs alone, what it holds or has left, and counts its faults. A failure comes only where
//! that count rose, so a caller's contract can name the cause of every answer. Beside the traits stand fakes in memory,
//! which tell their contents, and adapters to the real devices, which tell none.
#![tactic(auto)]

mod adapters;
mod devices;
mod errors;
mod fake_shelf;
mod fake_sink;
mod fake_source;
mod names;

pub use adapters::{FileShelf, StdSink, StdSource};
pub use devices::{Gate, OpenGate, Shelf, Sink, Source};
pub use errors::{Failed, Memory};
pub use fake_shelf::MemShelf;
pub use fake_sink::MemSink;
pub use fake_source::MemSource;
pub use names::Name;

#[cfg(test)]
mod tests;
