//! Packets that stand in no slot. A leaf's is told by its key and its box, and that of an inner node that is not live by
//! the tree in which it rests.
ghost use Rattle.std.specs.Prelude.{◌≡◌, ◌<◌, ◌+◌, ◌^◌, length, suc, false, Some};
ghost use Rattle.morton_key.specs.Keys.{IsLawful};
ghost use Rattle.radix_tree.specs.Table.{IsTable, node_at};
ghost use Rattle.radix_tree.specs.Ranges.{HasRange};
ghost use Rattle.radix_tree.specs.Filling.{IsChild};
ghost use Rattle.arrival_core.specs.Frames.{packet_at};
ghost use Rattle.arrival_core.specs.Frames.Below.{leaf};
ghost use Rattle.arrival_core.specs.Settings.{row_of};
ghost use Rattle.arrival_core.specs.Terrains.{table_packet};
ghost use Rattle.box_handoff.specs.LiveNodes.{slotted};
ghost use Rattle.box_handoff.specs.Entries.{IsGiven, frame, given_of};
ghost use Rattle.box_handoff.specs.Laying.{AreMoves, over, terrain_of};
ghost use Rattle.box_handoff.specs.Resting.{first_below, last_below, leaf_below};

use crate::laying::Moves;
use crate::views::About;
use crate::{Packet, Side};
use radix_tree::{Child, Tree, box_at, node_of};

/// The packet of the leaf at a position.
pub fn leaf_packet(about: &About<'_>, position: u32) -> Packet
    requires lawful { IsLawful about.now.keys.now }
    requires boxes { length about.now.boxes.now ≡ length about.now.keys.now }
    requires within { position < length about.now.keys.now }
    ensures { result ≡ (frame (given_of about.now)).leaf_packet position }
{
    let fit = box_at(about.keys, about.boxes, position as usize);
    Packet {
        first: position,
        last: position,
        split: position,
        fit,
    }
}

/// The packet of a child, as the tree has it.
fn packet_of(m: &Moves<'_>, child: Child) -> Packet
    requires moves { AreMoves m.now }
    requires child { IsChild m.now.tree.now child }
    ensures { result ≡ table_packet (terrain_of m.now) child }
{
    match child {
        Child::Leaf(position) => {
            let fit = box_at(m.tree.keys(), m.boxes, position as usize);
            Packet {
                first: position,
                last: position,
                split: position,
                fit,
            }
        }
        Child::Inner(number) => {
            let node = node_of(m.tree, number);
            Packet {
                first: node.first,
                last: node.last,
                split: node.split,
                fit: node.fit,
            }
        }
    }
}

/// The left child of the node with that split: the node of that number, if that ends there, or a leaf.
fn left_at(tree: &Tree, split: u32) -> Child
    requires table { IsTable tree.now }
    requires within { split < length tree.now.nodes }
    ensures { HasRange tree.now.keys result (row_of tree.now.keys split).first split }
{
    if node_of(tree, split).last == split {
        Child::Inner(split)
    } else {
        Child::Leaf(split)
    }
}

/// The right child of the node with that split: the node of the next number, if that begins there, or a leaf.
fn right_at(tree: &Tree, split: u32) -> Child
    requires table { IsTable tree.now }
    requires within { split < length tree.now.nodes }
    ensures { HasRange tree.now.keys result (suc split) (row_of tree.now.keys split).last }
{
    let next = split + 1;
    if next as usize >= tree.nodes().len() {
        return Child::Leaf(next);
    }
    if node_of(tree, next).first == next {
        Child::Inner(next)
    } else {
        Child::Leaf(next)
    }
}

/// The child on a side of the node with that split.
fn child_at(tree: &Tree, split: u32, side: Side) -> Child
    requires table { IsTable tree.now }
    requires within { split < length tree.now.nodes }
    ensures { HasRange tree.now.keys result (first_below tree.now.keys split side)
        (last_below tree.now.keys split side) }
{
    match side {
        Side::Left => left_at(tree, split),
        Side::Right => right_at(tree, split),
    }
}

/// The packet of a child that has no slot, where the tree is there.
fn rest_packet(about: &About<'_>, tree: &Tree, split: u32, side: Side) -> Packet
    requires given { IsGiven (given_of about.now) }
    requires tree { (given_of about.now).tree ≡ Some tree.now }
    requires within { split < (frame (given_of about.now)).nodes }
    requires told { slotted (frame (given_of about.now)) split side ≡ false }
    ensures { result ≡ packet_at (frame (given_of about.now)) split side }
{
    let moves = Moves {
        tree,
        boxes: about.boxes,
        live: about.live.as_slice(),
        seats: about.seats,
    };
    packet_of(&moves, child_at(tree, split, side))
}

/// The packet of a child that is a leaf, where all leaves are live.
fn leaf_at(about: &About<'_>, split: u32, side: Side) -> Packet
    requires given { IsGiven (given_of about.now) }
    requires within { split < (frame (given_of about.now)).nodes }
    requires leaf { (frame (given_of about.now)).child split side ≡ leaf (leaf_below split side) }
    ensures { result ≡ packet_at (frame (given_of about.now)) split side }
{
    match side {
        Side::Left => leaf_packet(about, split),
        Side::Right => leaf_packet(about, split + 1),
    }
}

/// The packet of a child that has no slot.
pub fn told(about: &About<'_>, split: u32, side: Side) -> Packet
    requires given { IsGiven (given_of about.now) }
    requires within { split < (frame (given_of about.now)).nodes }
    requires told { slotted (frame (given_of about.now)) split side ≡ false }
    ensures { result ≡ packet_at (frame (given_of about.now)) split side }
{
    match &about.spots {
        None => leaf_at(about, split, side),
        Some(spots) => rest_packet(about, spots.tree, split, side),
    }
}
