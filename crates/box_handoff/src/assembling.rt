//! A tree from the packets of its nodes' children. The packet of an inner child tells the child's row, and its place
//! the child's number: a left child has its parent's split for number, a right one the next.
ghost use Rattle.std.specs.Prelude.{◌≡◌, ◌<◌, ◌≤◌, ◌+◌, ◌-◌, ◌^◌, List, length, IfOk, IfSome};
ghost use Rattle.arrival_core.specs.declared.packets.Side.TheVariants.{Left, Right};
ghost use Rattle.fixed_box.specs.declared.shapes.Box3.{Box3};
ghost use Rattle.morton_key.specs.Keys.{IsLawful};
ghost use Rattle.radix_tree.specs.Table.{IsTable};
ghost use Rattle.radix_tree.specs.Fit.{IsFitted, table_of};
ghost use Rattle.arrival_core.specs.Tasks.{IsWhole};
ghost use Rattle.box_handoff.specs.Entries.{IsGiven, given_of, setting_of, numbers};
ghost use Rattle.box_handoff.specs.Gathering.{AreFlags, IsTaken, IsTaking};
ghost use Rattle.box_handoff.specs.Packets.{AreFitted, child_packet, over_keys};
ghost use Rattle.box_handoff.specs.Assembling.{row, first_taken, last_taken, PutsChild, PutsSlot, PutsRoot, PutsRows};

use crate::climbing::batches_of;
use crate::gathering::{take_slots, taken_or_told};
use crate::slots::SlotPacket;
use crate::views::About;
use crate::{Fitted, Packet, Side};
use atomic_table::Closed;
use fixed_box::{Box3, Point, union};
use morton_key::Key;
use outside::Memory;
use radix_tree::{Node, Tree};
use std::alloc::Global;

/// The row that a packet tells.
fn row_of(packet: &Packet) -> Node
    ensures { result ≡ row packet.now }
{
    Node {
        first: packet.first,
        last: packet.last,
        split: packet.split,
        fit: packet.fit,
    }
}

/// Puts the row of a child at its number, where the child is inner.
fn put_child(nodes: &mut Vec<Node>, number: usize, packet: &Packet)
    requires { packet.now.first < packet.now.last → number < length nodes.old.items }
    ensures { PutsChild nodes.old.items nodes.new.items number packet.now }
{
    if packet.first < packet.last {
        nodes[number] = row_of(packet);
    }
}

/// Puts the root's row, where these are the packets of the root's children.
fn put_root(nodes: &mut Vec<Node>, split: u32, left: &Packet, right: &Packet)
    requires { 0 < length nodes.old.items }
    ensures { PutsRoot nodes.old.items nodes.new.items split left.now right.now }
{
    if left.first == 0 && right.last as usize == nodes.len() {
        nodes[0] = Node {
            first: 0,
            last: right.last,
            split,
            fit: union(&left.fit, &right.fit),
        };
    }
}

/// Puts the rows that the packets of the children of the node with split `t` tell.
fn put_rows(nodes: &mut Vec<Node>, t: usize, left: &Packet, right: &Packet)
    requires some { t < length nodes.old.items }
    requires within { right.now.first < right.now.last → t + 1 < length nodes.old.items }
    requires few { length nodes.old.items ≤ 2 ^ 20 }
    ensures { PutsRows nodes.old.items nodes.new.items t left.now right.now }
{
    put_child(nodes, t, left);
    put_child(nodes, t + 1, right);
    put_root(nodes, t as u32, left, right);
}

/// Puts the row of a child at its number, where it was taken out of a slot.
fn put_slot(nodes: &mut Vec<Node>, number: usize, taken: &Option<Packet>)
    requires within { IfSome taken.now (λ p. number < length nodes.old.items) }
    ensures { PutsSlot nodes.old.items nodes.new.items number taken.now }
{
    if let Some(packet) = taken {
        nodes[number] = row_of(packet);
    }
}

/// Where the range of a left child begins: it ends at the split, and a leaf begins there too.
fn first_of(split: u32, left: &Option<Packet>) -> u32
    ensures { result ≡ first_taken split left.now }
{
    match left {
        Some(packet) => packet.first,
        None => split,
    }
}

/// Where the range of a right child ends: it begins behind the split, and a leaf ends there too.
fn last_of(split: u32, right: &Option<Packet>) -> u32
    requires { split < 2 ^ 31 }
    ensures { result ≡ last_taken split right.now }
{
    match right {
        Some(packet) => packet.last,
        None => split + 1,
    }
}

/// Puts the rows of the inner children of the node with that split, and the root's, if it is the root. No leaf's box is
/// looked up but for the root's row.
fn put_taken(
    nodes: &mut Vec<Node>,
    about: &About<'_>,
    split: u32,
    left: &Option<Packet>,
    right: &Option<Packet>,
)
    requires given { IsGiven (given_of about.now) }
    requires whole { IsWhole (setting_of (given_of about.now)) }
    requires count { length nodes.old.items ≡ length about.now.keys.now - 1 }
    requires within { split < length nodes.old.items }
    requires left { IsTaken (given_of about.now) split Left left.now }
    requires right { IsTaken (given_of about.now) split Right right.now }
    ensures { PutsRows nodes.old.items nodes.new.items split
        (child_packet about.now.keys.now about.now.boxes.now split Left)
        (child_packet about.now.keys.now about.now.boxes.now split Right) }
{
    put_slot(nodes, split as usize, left);
    put_slot(nodes, split as usize + 1, right);
    if first_of(split, left) != 0 {
        return;
    }
    if last_of(split, right) as usize != nodes.len() {
        return;
    }
    let on_left = taken_or_told(about, split, Side::Left, left);
    let on_right = taken_or_told(about, split, Side::Right, right);
    put_root(nodes, split, &on_left, &on_right);
}

/// So many nodes, still to be written.
pub fn blank_nodes(alloc: Global, count: usize) -> Result<Vec<Node>, Memory>
    ensures { IfOk result (λ nodes. length nodes.items ≡ count) }
{
    let origin = Point { x: 0, y: 0, z: 0 };
    let blank = Node {
        first: 0,
        last: 0,
        split: 0,
        fit: Box3::of_corners(origin, origin),
    };
    vec![in alloc; blank; count].map_err(|_| Memory)
}

/// Writes the rows of all inner nodes out of a closed table over all leaves, and frees the table.
pub fn write_out(
    mut closed: Closed<SlotPacket, Global>,
    mut nodes: Vec<Node>,
    about: &About<'_>,
) -> Vec<Node>
    requires given { IsGiven (given_of about.now) }
    requires whole { IsWhole (setting_of (given_of about.now)) }
    requires flags { AreFlags (given_of about.now) closed.words.items closed.words.filled closed.words.len }
    requires taking { IsTaking (given_of about.now) closed.slots.items closed.slots.filled closed.slots.len 0 }
    requires room { length nodes.items ≡ (numbers (given_of about.now)).count }
    ensures table { IsTable (over_keys about.now.keys.now result.items) }
    ensures fitted { IsFitted (over_keys about.now.keys.now result.items) about.now.boxes.now }
    ensures value { result.items ≡ table_of about.now.keys.now about.now.boxes.now }
{
    let base = batches_of(about);
    let mut here = closed.take(0);
    for t in 0..nodes.len() {
        let (left, right) = take_slots(&mut closed, &mut here, about, base, t);
        put_taken(&mut nodes, about, t as u32, &left, &right);
    }
    closed.free();
    nodes
}

/// The tree whose inner nodes have these children: it is fitted to the boxes that the packets are. It takes memory for
/// one list of nodes. After `Memory` the keys are dropped.
pub fn assemble(alloc: Global, keys: Vec<Key>, fitted: &Fitted) -> Result<Tree, Memory>
    requires lawful { IsLawful keys.items }
    requires packets { (boxes : List Box3) × (length boxes ≡ length keys.items)
        × AreFitted keys.items boxes fitted.now }
    ensures keys { IfOk result (λ t. t.keys ≡ keys.items) }
    ensures table { IfOk result IsTable }
    ensures fitted { (boxes : List Box3) → length boxes ≡ length keys.items → AreFitted keys.items boxes fitted.now →
        IfOk result (λ t. IsFitted t boxes) }
    ensures value { (boxes : List Box3) → length boxes ≡ length keys.items → AreFitted keys.items boxes fitted.now →
        IfOk result (λ t. t.nodes ≡ table_of keys.items boxes) }
{
    let mut nodes = blank_nodes(alloc, fitted.left.len())?;
    for t in 0..nodes.len() {
        put_rows(&mut nodes, t, &fitted.left[t], &fitted.right[t]);
    }
    Ok(Tree::of(keys, nodes))
}
