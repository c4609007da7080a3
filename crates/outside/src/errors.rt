//! The two bare errors of the product.

/// Memory ran out. No clause says when that happens.
#[derive(Clone, Copy, Debug, PartialEq, Eq)]
pub struct Memory;

/// A device failed, or a name is not held.
#[derive(Clone, Copy, Debug, PartialEq, Eq)]
pub struct Failed;
