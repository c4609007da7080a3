//! Worlds that are asked without a script.

mod asking;
mod moving;
