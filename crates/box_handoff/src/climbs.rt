//! The calls of a handoff.
ghost use Rattle.std.specs.Prelude.{◌≡◌, ◌<◌, ◌≤◌, ℕ, [], length, vec_capacity, IfOk, true, false};
ghost use Rattle.morton_key.specs.Keys.{IsLawful};
ghost use Rattle.box_handoff.specs.Entries.{frame};
ghost use Rattle.box_handoff.specs.Climbs.{Grew};
ghost use Rattle.arrival_core.specs.declared.packets.TheConstants.{MOST_WORKERS};
ghost use Rattle.arrival_core.specs.Settings.{setting};
ghost use Rattle.arrival_core.specs.Tasks.{IsTask, IsWhole, FitsButFor};
ghost use Rattle.radix_tree.specs.Table.{IsTable};
ghost use Rattle.radix_tree.specs.Fit.{IsFitted, table_of};
ghost use Rattle.box_handoff.specs.Packets.{AreFitted, AreLiveFitted};
ghost use Rattle.box_handoff.specs.Counts.{IsCounted, IsLiveCounted};
ghost use Rattle.box_handoff.specs.Seats.{given_by, setting_by, entry_of, IsSeatOf, tree_by, IsOver, AreFresh, AreAll, IsSumOf};

use crate::assembling::{blank_nodes, write_out};
use crate::climbing::{batches_of, climb_with};
use crate::fitted::{Fitted, FittedNodes};
use crate::gathering::{finish, read_out};
use crate::handoffs::Handoff;
use crate::making::{make_live, make_whole, seats_of, whole};
use crate::numbering::count_of;
use crate::seats::HandSeat;
use crate::ways::Ways;
use crate::{Packet, Tally};
use fixed_box::Box3;
use morton_key::Key;
use outside::{Gate, Memory};
use radix_tree::Tree;
use std::alloc::Global;

impl<'a> Handoff<'a> {
    /// A handoff over all keys, and its seats, numbered from 0, none of which has begun. `boxes[t - 1]` is the box of
    /// triangle `t`.
    ///
    /// It takes memory for a word for every 64 keys, for a word and a slot for each inner node, and for one slot more.
    pub fn fresh(
        alloc: Global,
        keys: &'a [Key],
        boxes: &'a [Box3],
        seats: u32,
    ) -> Result<(Handoff<'a>, Vec<HandSeat>), Memory>
        requires lawful { IsLawful keys.now }
        requires two { 1 < length keys.now }
        requires count { length boxes.now ≡ length keys.now }
        requires some { 0 < seats }
        requires few { seats ≤ MOST_WORKERS }
        ensures over { IfOk result (λ r. IsOver keys.now boxes.now seats r.0) }
        ensures seats { IfOk result (λ r. AreFresh r.0 r.1.items) }
    {
        let about = whole(alloc, keys, boxes, seats)?;
        let (handoff, first) = make_whole(alloc, about)?;
        let seats = seats_of(&handoff, alloc, first)?;
        Ok((handoff, seats))
    }

    /// A handoff over the live leaves alone, and its seats, numbered from 0, none of which has begun.
    ///
    /// `boxes[t - 1]` is the box of triangle `t`, and `live` are the positions whose boxes may have changed, rising, one
    /// at least. The tree is fitted to some list of boxes that gives the triangle at every other position the same box.
    /// It takes memory for a word for every 64 live leaves, for a word, a slot and a number for each live inner node, for
    /// one slot more, and for the live positions.
    pub fn partial(
        alloc: Global,
        tree: &'a Tree,
        boxes: &'a [Box3],
        live: &[u32],
        seats: u32,
    ) -> Result<(Handoff<'a>, Vec<HandSeat>), Memory>
        requires task { IsTask (setting tree.now.keys boxes.now live.now seats) }
        requires few { seats ≤ MOST_WORKERS }
        requires rest { FitsButFor tree.now boxes.now live.now }
        ensures over { IfOk result (λ r. setting_by r.0 ≡ setting tree.now.keys boxes.now live.now seats) }
        ensures seats { IfOk result (λ r. AreFresh r.0 r.1.items) }
    {
        let (handoff, first) = make_live(alloc, tree, boxes, live, seats)?;
        let seats = seats_of(&handoff, alloc, first)?;
        Ok((handoff, seats))
    }

    /// Takes batches of leaves and carries their boxes up, until no batch is left, and answers the seat's tally.
    ///
    /// Before each take it passes the gate, with the seat's number and its turn, counted from 0. Between two takes it
    /// only goes up the tree. It waits for no other worker, tries nothing again and takes no memory. Any thread may
    /// call it, on seats of its own.
    pub fn climb<W: Ways, G: Gate>(&self, seat: &mut HandSeat, ways: &W, gate: &G) -> Tally
        requires own { IsSeatOf self.now seat.old }
        requires unbegun { seat.old.ended ≡ false }
        requires ways { W.stands ways.now (given_by self.now).keys }
        ensures own { IsSeatOf self.now seat.new }
        ensures number { seat.new.number ≡ seat.old.number }
        ensures ended { seat.new.ended ≡ true }
        ensures tally { result ≡ seat.new.tally }
        // each event that its view gained is the machine's for the phase then reached
        ensures grew { Grew (frame (given_by self.now)) (entry_of seat.old) (entry_of seat.new) }
    {
        let base = batches_of(&self.about);
        let tally = climb_with(
            &self.table.shared,
            &self.about,
            &mut seat.seat,
            base,
            seat.number,
            ways,
            gate,
        );
        seat.tally = tally;
        seat.ended = true;
        tally
    }

    /// The packets of the children of all live nodes, in the order of their splits, and the tallies of all seats added
    /// up. The seats are all those of the handoff, in any order, and each has ended. After `Memory` the handoff and the
    /// seats are dropped.
    pub fn close(self, alloc: Global, seats: Vec<HandSeat>) -> Result<Fitted, Memory>
        requires seats { AreAll self seats.items }
        ensures live { IfOk result (λ r. AreLiveFitted (setting_by self.entry) r) }
        ensures sum { IfOk result (λ r. IsSumOf seats.items r.tally) }
        ensures live_counts { IfOk result (λ r. IsLiveCounted (setting_by self.entry) r.tally) }
        // where all leaves are live, the place of a node is its split
        ensures packets { IsWhole (setting_by self.entry) →
            IfOk result (λ r. AreFitted (given_by self.entry).keys (given_by self.entry).boxes r) }
        ensures counts { IsWhole (setting_by self.entry) →
            IfOk result (λ r. IsCounted (length (given_by self.entry).keys) (given_by self.entry).seats r.tally) }
    {
        let count = count_of(&self.about);
        let left = room_for(alloc, count)?;
        let right = room_for(alloc, count)?;
        let (closed, about, tally) = finish(self, seats);
        let (left, right) = read_out(closed, left, right, count, &about);
        Ok(Fitted { left, right, tally })
    }

    /// The inner nodes of the tree of all keys, fitted to the boxes, and the tallies of all seats added up, where all
    /// leaves are live: the nodes of the tree that `assemble` makes of what `close` answers, written in one pass over
    /// the table. The seats are all those of the handoff, in any order, and each has ended. It takes memory for the
    /// nodes alone. After `Memory` the handoff and the seats are dropped.
    pub fn close_nodes(self, alloc: Global, seats: Vec<HandSeat>) -> Result<FittedNodes, Memory>
        requires seats { AreAll self seats.items }
        requires whole { IsWhole (setting_by self) }
        ensures table { IfOk result (λ r. IsTable (tree_by self.entry r)) }
        ensures fitted { IfOk result (λ r. IsFitted (tree_by self.entry r) (given_by self.entry).boxes) }
        ensures value { IfOk result (λ r. r.nodes.items ≡
            table_of (given_by self.entry).keys (given_by self.entry).boxes) }
        ensures sum { IfOk result (λ r. IsSumOf seats.items r.tally) }
        ensures counts { IfOk result (λ r.
            IsCounted (length (given_by self.entry).keys) (given_by self.entry).seats r.tally) }
    {
        let room = blank_nodes(alloc, count_of(&self.about))?;
        let (closed, about, tally) = finish(self, seats);
        let nodes = write_out(closed, room, &about);
        Ok(FittedNodes { nodes, tally })
    }
}

/// Room for so many packets.
fn room_for(alloc: Global, count: usize) -> Result<Vec<Packet>, Memory>
    ensures empty { IfOk result (λ v. v.items ≡ []) }
    ensures room { IfOk result (λ v. count ≤ vec_capacity v) }
{
    Vec::with_capacity(alloc, count).map_err(|_| Memory)
}

fn needs_send<T: Send>(_x: &T) {}

fn needs_sync<T: Sync>(_x: &T) {}

/// A handoff may be shared by threads, and a seat sent to one.
pub fn may_cross(handoff: &Handoff<'_>, seat: &HandSeat) {
    needs_sync(handoff);
    needs_send(seat);
}
