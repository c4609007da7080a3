//! The lines of a text, lines that go on in the next, and the words of a line.
//!
//! Mesh texts and scripts are cut by the same rules, which stand here once.
#![tactic(auto)]

mod cutting;
mod digit_runs;
mod joins;
mod lines;
mod numbers;
mod words;

pub use cutting::halves;
pub use digit_runs::{DIGITS_END, digits, is_digit, past_digits, sign, starts_minus};
pub use joins::JoinedLines;
pub use lines::{Lines, first_line};
pub use numbers::leading_number;
pub use words::{Words, first_word};

#[cfg(test)]
mod tests;
