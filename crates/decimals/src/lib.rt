//! Number words, read exactly: decimals as whole numbers of grid steps, and whole numbers.
//!
//! A decimal is never made into a fraction or a float. Its digits, its places and its exponent are small whole numbers,
//! and one division rounds them.
#![tactic(auto)]

mod decimal;
mod digits;
mod fault;
mod grid_values;
mod limits;
mod parts;
mod rounding;
mod short;
mod whole_numbers;

pub use fault::NumberFault;
pub use grid_values::{grid, grid_before};
pub use limits::{GREATEST, MOST_DIGITS};
pub use whole_numbers::whole;

#[cfg(test)]
mod tests;
