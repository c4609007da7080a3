//! What a slot keeps of a child's packet. A child's range ends at its parent's split, or begins behind it: the slot's
//! place tells one end, and the slot keeps the other.
ghost use Rattle.std.specs.Prelude.{◌≡◌, ◌<◌, ◌^◌};
ghost use Rattle.box_handoff.specs.Slots.{packed, unpacked, blank};

use arrival_core::{Packet, Side};
use fixed_box::{Box3, Point};

/// A child's packet as it stands in a slot of 32 bytes.
#[derive(Clone, Copy, Debug, PartialEq, Eq, Drop)]
pub struct SlotPacket {
    /// The end of the child's range that is away from its parent's split.
    pub far: u32,
    pub split: u32,
    pub fit: Box3,
}

/// What a slot on that side keeps of a packet.
pub fn pack(side: Side, packet: &Packet) -> SlotPacket
    ensures { result ≡ packed side packet.now }
{
    let far = match side {
        Side::Left => packet.first,
        Side::Right => packet.last,
    };
    SlotPacket {
        far,
        split: packet.split,
        fit: packet.fit,
    }
}

/// The packet that a slot on that side of the node with that split keeps.
pub fn unpack(node: u32, side: Side, slot: &SlotPacket) -> Packet
    requires { node < 2 ^ 31 }
    ensures { result ≡ unpacked node side slot.now }
{
    let (first, last) = match side {
        Side::Left => (slot.far, node),
        Side::Right => (node + 1, slot.far),
    };
    Packet {
        first,
        last,
        split: slot.split,
        fit: slot.fit,
    }
}

/// What stands in a slot before a packet does.
pub fn blank_slot() -> SlotPacket
    ensures { result ≡ blank }
{
    let origin = Point { x: 0, y: 0, z: 0 };
    SlotPacket {
        far: 0,
        split: 0,
        fit: Box3::of_corners(origin, origin),
    }
}
