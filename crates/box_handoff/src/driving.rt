//! Every seat of a handoff driven by a thread.
ghost use Rattle.std.specs.Prelude.{◌≡◌, ◌<◌, ◌≤◌, ℕ, length, All, IfOk, slice_index_or};
ghost use Rattle.morton_key.specs.Keys.{IsLawful};
ghost use Rattle.arrival_core.specs.declared.packets.TheConstants.{MOST_WORKERS};
ghost use Rattle.arrival_core.specs.Settings.{setting};
ghost use Rattle.arrival_core.specs.Tasks.{IsTask, FitsButFor};
ghost use Rattle.radix_tree.specs.Table.{IsTable};
ghost use Rattle.radix_tree.specs.Fit.{IsFitted, table_of};
ghost use Rattle.box_handoff.specs.Packets.{AreFitted, AreLiveFitted, over_keys};
ghost use Rattle.box_handoff.specs.Counts.{IsCounted, IsLiveCounted};
ghost use Rattle.box_handoff.specs.Seats.{given_by, IsOver, AreFresh, AreAll};
ghost use Rattle.box_handoff.specs.Driving.{IsReady, Climbs, WereDone};

use crate::fitted::{Fitted, FittedNodes};
use crate::handoffs::Handoff;
use crate::seats::HandSeat;
use crate::ways::Ways;
use fixed_box::Box3;
use morton_key::Key;
use outside::{Gate, Memory};
use radix_tree::Tree;
use std::alloc::Global;
use std::thread::{self, Threads};

/// A seat climbs to its end.
fn climb_one<W: Ways, G: Gate>(handoff: &Handoff<'_>, seat: &mut HandSeat, ways: &W, gate: &G)
    requires ready { IsReady handoff.now seat.old }
    requires ways { W.stands ways.now (given_by handoff.now).keys }
    ensures { Climbs handoff.now seat.old seat.new }
{
    let _tally = handoff.climb(seat, ways, gate);
}

/// Every seat climbs, each in a thread of its own where there is one.
fn climb_slice<R: Threads + Sync, W: Ways, G: Gate>(
    rt: &R,
    handoff: &Handoff<'_>,
    seats: &mut [HandSeat],
    ways: &W,
    gate: &G,
)
    requires some { 0 < length seats.old }
    requires ready { All (IsReady handoff.now) seats.old }
    requires ways { W.stands ways.now (given_by handoff.now).keys }
    ensures { WereDone handoff.now seats.old seats.new }
{
    let count = seats.len();
    thread::for_each_mut(
        rt,
        seats,
        count,
        &|_: usize, seat: &mut HandSeat|
            requires { IsReady handoff.now seat.now × W.stands ways.now (given_by handoff.now).keys }
            ensures { Climbs handoff.entry.now seat.entry.now seat.exit.now }
        { climb_one(handoff, seat, ways, gate) },
    );
}

/// Every seat climbs to its end, each in a thread of its own where there is one.
fn climb_all<R: Threads + Sync, W: Ways, G: Gate>(
    rt: &R,
    handoff: &Handoff<'_>,
    seats: &mut Vec<HandSeat>,
    ways: &W,
    gate: &G,
)
    requires some { 0 < length seats.old.items }
    requires fresh { AreFresh handoff.now seats.old.items }
    requires ways { W.stands ways.now (given_by handoff.now).keys }
    ensures { AreAll handoff.now seats.new.items }
{
    climb_slice(rt, handoff, seats.as_mut_slice(), ways, gate)
}

/// A handoff over all keys, and its seats, each of which has climbed to its end.
fn climbed<'a, R: Threads + Sync, W: Ways, G: Gate>(
    rt: &R,
    alloc: Global,
    ways: &W,
    gate: &G,
    keys: &'a [Key],
    boxes: &'a [Box3],
    workers: u32,
) -> Result<(Handoff<'a>, Vec<HandSeat>), Memory>
    requires lawful { IsLawful keys.now }
    requires two { 1 < length keys.now }
    requires count { length boxes.now ≡ length keys.now }
    requires some { 0 < workers }
    requires few { workers ≤ MOST_WORKERS }
    requires ways { W.stands ways.now keys.now }
    ensures over { IfOk result (λ r. IsOver keys.now boxes.now workers r.0) }
    ensures seats { IfOk result (λ r. AreAll r.0 r.1.items) }
{
    let (handoff, mut seats) = Handoff::fresh(alloc, keys, boxes, workers)?;
    climb_all(rt, &handoff, &mut seats, ways, gate);
    Ok((handoff, seats))
}

/// The packets of all children, fitted by so many workers, each with a seat in a thread of its own where there is one.
/// `boxes[t - 1]` is the box of triangle `t`.
///
/// Which worker fits which node differs from run to run; the packets and the sums of the tallies do not.
pub fn fit<R: Threads + Sync, W: Ways, G: Gate>(
    rt: &R,
    alloc: Global,
    ways: &W,
    gate: &G,
    keys: &[Key],
    boxes: &[Box3],
    workers: u32,
) -> Result<Fitted, Memory>
    requires lawful { IsLawful keys.now }
    requires two { 1 < length keys.now }
    requires count { length boxes.now ≡ length keys.now }
    requires some { 0 < workers }
    requires few { workers ≤ MOST_WORKERS }
    requires ways { W.stands ways.now keys.now }
    ensures packets { IfOk result (λ r. AreFitted keys.now boxes.now r) }
    ensures counts { IfOk result (λ r. IsCounted (length keys.now) workers r.tally) }
{
    let (handoff, seats) = climbed(rt, alloc, ways, gate, keys, boxes, workers)?;
    handoff.close(alloc, seats)
}

/// The inner nodes of the tree of the keys, fitted to the boxes by so many workers, each with a seat in a thread of its
/// own where there is one: the nodes of the tree that `assemble` makes of what `fit` answers, with no list of packets
/// between. `boxes[t - 1]` is the box of triangle `t`.
pub fn fit_nodes<R: Threads + Sync, W: Ways, G: Gate>(
    rt: &R,
    alloc: Global,
    ways: &W,
    gate: &G,
    keys: &[Key],
    boxes: &[Box3],
    workers: u32,
) -> Result<FittedNodes, Memory>
    requires lawful { IsLawful keys.now }
    requires two { 1 < length keys.now }
    requires count { length boxes.now ≡ length keys.now }
    requires some { 0 < workers }
    requires few { workers ≤ MOST_WORKERS }
    requires ways { W.stands ways.now keys.now }
    ensures table { IfOk result (λ r. IsTable (over_keys keys.now r.nodes.items)) }
    ensures fitted { IfOk result (λ r. IsFitted (over_keys keys.now r.nodes.items) boxes.now) }
    ensures value { IfOk result (λ r. r.nodes.items ≡ table_of keys.now boxes.now) }
    ensures counts { IfOk result (λ r. IsCounted (length keys.now) workers r.tally) }
{
    let (handoff, seats) = climbed(rt, alloc, ways, gate, keys, boxes, workers)?;
    handoff.close_nodes(alloc, seats)
}

/// The packets of the children of all live nodes, fitted by so many workers: `live` are the positions whose boxes may
/// have changed, rising, one at least, and the tree is fitted to some list of boxes that gives the triangle at every other
/// position the same box as `boxes` does.
///
/// The packets stand in the order of the nodes' splits, and those of no other node are worked out. It takes time and
/// memory in proportion to the live nodes, but for the times of a search among them.
pub fn fit_live<R: Threads + Sync, W: Ways, G: Gate>(
    rt: &R,
    alloc: Global,
    ways: &W,
    gate: &G,
    tree: &Tree,
    boxes: &[Box3],
    live: &[u32],
    workers: u32,
) -> Result<Fitted, Memory>
    requires task { IsTask (setting tree.now.keys boxes.now live.now workers) }
    requires few { workers ≤ MOST_WORKERS }
    requires rest { FitsButFor tree.now boxes.now live.now }
    requires ways { W.stands ways.now tree.now.keys }
    ensures packets { IfOk result (λ r. AreLiveFitted (setting tree.now.keys boxes.now live.now workers) r) }
    ensures counts { IfOk result (λ r. IsLiveCounted (setting tree.now.keys boxes.now live.now workers) r.tally) }
{
    let (partial, mut all) = Handoff::partial(alloc, tree, boxes, live, workers)?;
    climb_all(rt, &partial, &mut all, ways, gate);
    partial.close(alloc, all)
}
