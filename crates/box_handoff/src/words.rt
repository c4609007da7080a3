//! The bits of a shared word. A batch's word has one; an inner node's has nine, two of them for each side and kind.
ghost use Rattle.std.specs.Prelude.{◌≡◌, ◌<◌, ◌+◌, ◌^◌};
ghost use Rattle.box_handoff.specs.Rule.{bit_on, side_no};

use crate::Side;

/// The batch is claimed.
pub const CLAIMED: u32 = 0;

/// The left side is opened, for a child that has no slot; the next bit is the right side's.
pub const OPENED: u32 = 0;

/// The child of the left side has arrived; the next bit is the right side's.
pub const ARRIVED: u32 = 2;

/// The packet of the left side is collected; the next bit is the right side's.
pub const COLLECTED: u32 = 4;

/// The node is fitted, and what it is fitted to is on its way up.
pub const RETURNED: u32 = 6;

/// The left side is opened, for a child that has a slot; the next bit is the right side's.
pub const HANDED: u32 = 7;

/// The bit of a side, of the two that begin with a bit.
pub fn bit_of(first: u32, side: Side) -> u32
    requires { first < 62 }
    ensures { result ≡ first + side_no side }
{
    match side {
        Side::Left => first,
        Side::Right => first + 1,
    }
}

/// The word in which that bit alone is set.
pub fn mask(bit: u32) -> u64
    requires { bit < 64 }
    ensures { result ≡ 2 ^ bit }
{
    1 << bit
}

/// Whether a bit of a word is set.
pub fn is_set(word: u64, bit: u32) -> bool
    requires { bit < 64 }
    ensures { result ≡ bit_on word bit }
{
    (word >> bit) & 1 == 1
}
