//! What a seat knows, and what a handoff is over. Of `Given`, `Entry` and `View` no value is made.

use arrival_core::{Phase, Tally};
use fixed_box::Box3;
use morton_key::Key;
use radix_tree::Tree;
use std::collections::LinkedList;

/// What a worker did, with what the word showed before it.
pub enum Event {
    Take(bool),
    Open,
    Arrive(bool),
    Collect,
    Leave,
}

pub struct Given {
    pub keys: LinkedList<Key>,
    pub boxes: LinkedList<Box3>,
    pub live: LinkedList<u32>,
    pub seats: u64,
    /// The splits of the live nodes, in order. Where there is no list, all nodes are live.
    pub spots: Option<LinkedList<u32>>,
    /// The tree in which the other nodes rest, where there is such a list.
    pub tree: Option<Tree>,
}

pub struct Entry {
    pub number: u64,
    pub next: u64,
    pub pending: LinkedList<u32>,
    pub phase: Phase,
    pub tally: Tally,
    pub events: LinkedList<Event>,
}

pub struct View {
    pub given: Given,
    pub entries: LinkedList<Entry>,
}

/// The live nodes of a tree, where not all are live.
#[derive(Drop)]
pub struct Spots<'a> {
    /// Their splits, in order.
    pub splits: Vec<u32>,
    /// The tree, in which the others rest.
    pub tree: &'a Tree,
}

/// What a handoff keeps of what it was made of.
#[derive(Drop)]
pub struct About<'a> {
    pub keys: &'a [Key],
    pub boxes: &'a [Box3],
    pub live: Vec<u32>,
    pub seats: u32,
    /// The live nodes. Where they are not told, all nodes are live.
    pub spots: Option<Spots<'a>>,
}
