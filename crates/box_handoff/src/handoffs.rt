//! A handoff: the shared words and slots of one fitting run, beside what it was made of.

use crate::plays::Arrival;
use crate::slots::SlotPacket;
use crate::views::{About, View};
use atomic_table::Table;
use std::alloc::Global;
use std::snapshot::Snapshot;

/// One fitting run: a word for each batch of live leaves and for each live inner node, and a slot before, between and
/// behind the live inner nodes.
///
/// It lends the keys and the boxes, and the tree in which what is not live rests. Threads share it; each climbs with a seat of its own.
#[derive(Drop)]
pub struct Handoff<'a> {
    pub(crate) table: Table<SlotPacket, View, Snapshot<About<'a>>, Arrival, Global>,
    pub(crate) about: About<'a>,
}
