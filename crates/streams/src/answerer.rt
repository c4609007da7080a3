//! Who answers the lines of a script. What the answer to a line is and what state it leaves are ghost members, so the
//! loop that moves bytes is proved once, for every script language.
//!
//! The function that answers a line is no method: it is handed to the loop as a value, so what it does may start
//! threads.

ghost use Rattle.std.specs.Prelude.{ℕ, List};

/// The state in which lines are answered, one after another, each by a text and by the state that it leaves.
pub trait Answerer {
    // The answer in a state to the line of this number.
    ghost text: { Self → ℕ → List ℕ → List ℕ };
    // The state that the answer to a line leaves.
    ghost after: { Self → List ℕ → Self };
}

/// How the script of a run that went to its end came to that end.
#[derive(Clone, Copy, Debug, PartialEq, Eq)]
pub enum Ended {
    /// All of its lines were answered.
    Whole,
    /// It has more bytes than the limit, and the lines that ended within the limit were answered.
    TooLong,
}

/// Why a run stopped before its end.
#[derive(Clone, Copy, Debug, PartialEq, Eq)]
pub enum Stop {
    /// The source failed.
    Read,
    /// The sink failed.
    Write,
    /// Memory ran out.
    Memory,
}
