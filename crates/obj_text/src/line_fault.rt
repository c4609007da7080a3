//! Why one line was not read.

use crate::fault::Why;

/// Why one line was not read.
#[derive(Clone, Copy, Debug, PartialEq, Eq, Drop)]
pub enum LineFault {
    Faulty(Why),
    Memory,
}
