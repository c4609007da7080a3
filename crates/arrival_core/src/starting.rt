//! The start: nothing is claimed, nobody has begun, and what is not live rests in its place already.

ghost use Rattle.std.specs.Prelude.{◌≡◌, ℕ, ◌-◌, ◌<◌, ◌≤◌, ◌||◌, AllPairs, length, not, IfOk};
ghost use Rattle.arrival_core.specs.declared.packets.TheConstants.{MOST_WORKERS};
ghost use Rattle.arrival_core.specs.Cores.{setting_of, frame_of_core, state_of};
ghost use Rattle.arrival_core.specs.Start.{IsStart};
ghost use Rattle.arrival_core.specs.Lawful.{IsLawful};
ghost use Rattle.radix_tree.specs.Table.{node_at};
ghost use Rattle.radix_tree.specs.Filling.{IsChild};
ghost use Rattle.arrival_core.specs.Settings.{setting, live_in};
ghost use Rattle.arrival_core.specs.Tasks.{FitsButFor, IsTask};
ghost use Rattle.arrival_core.specs.Forks.{fork_at};
ghost use Rattle.arrival_core.specs.Terrains.{IsTerrain, IsStartFork, frame_at, setting_on, start_branch, table_packet};

use crate::forks::{Branch, Climber, Fork};
use crate::resuming::leaf_packet;
use crate::terrains::Terrain;
use crate::{BATCH, CoreState, Packet, Phase, Place, Tally};
use fixed_box::Box3;
use outside::Memory;
use radix_tree::{Child, Tree, left, node_of, right};
use std::alloc::{AllocError, Global};

/// Whether some live position lies in a range. The live ones rise, so the first that is not below the range tells.
fn is_live(live: &[u32], first: u32, last: u32) -> bool
    requires rising { AllPairs (λ p q. p < q) live.now }
    ensures { result ≡ live_in live.now first last }
{
    let at = live.partition_point(|q| *q < first);
    if at == live.len() {
        return false;
    }
    live[at] <= last
}

/// The packet of a child, as the tree has it.
fn packet_of(g: &Terrain<'_>, child: Child) -> Packet
    requires terrain { IsTerrain g.now }
    requires child { IsChild g.now.tree.now child }
    ensures { result ≡ table_packet g.now child }
{
    match child {
        Child::Leaf(p) => leaf_packet(g, p),
        Child::Inner(i) => {
            let node = node_of(g.tree, i);
            Packet {
                first: node.first,
                last: node.last,
                split: node.split,
                fit: node.fit,
            }
        }
    }
}

/// A side as it starts.
fn start_branch(live: bool, packet: Packet) -> Branch
    ensures { result ≡ start_branch live packet }
{
    Branch {
        opened: !live,
        arrived: !live,
        collected: false,
        place: if live {
            Place::Nothing
        } else {
            Place::Holds(packet)
        },
    }
}

/// Whether neither holds.
fn neither(a: bool, b: bool) -> bool
    ensures { result ≡ not (a || b) }
{
    if a { false } else { !b }
}

/// The node of that number as it starts.
fn fork_of(g: &Terrain<'_>, number: u32) -> Fork
    requires terrain { IsTerrain g.now }
    requires number { number < length g.now.tree.now.nodes }
    requires rest { FitsButFor g.now.tree.now g.now.boxes.now g.now.live.now }
    ensures { (workers : ℕ) → 0 < workers →
        IsStartFork (frame_at g.now workers) (node_at g.now.tree.now.nodes number).split result }
{
    let node = node_of(g.tree, number);
    let on_left = is_live(g.live, node.first, node.split);
    let on_right = is_live(g.live, node.split + 1, node.last);
    Fork {
        left: start_branch(on_left, packet_of(g, left(g.tree, number))),
        right: start_branch(on_right, packet_of(g, right(g.tree, number))),
        returned: neither(on_left, on_right),
    }
}

/// All nodes as they start.
pub(crate) fn start_forks(g: &Terrain<'_>, forks: &mut [Fork])
    requires terrain { IsTerrain g.now }
    requires nodes { length forks.old ≡ length g.now.tree.now.nodes }
    requires rest { FitsButFor g.now.tree.now g.now.boxes.now g.now.live.now }
    ensures { (workers t : ℕ) → 0 < workers → t < length forks.new →
        IsStartFork (frame_at g.now workers) t (fork_at forks.new t) }
{
    for number in 0..forks.len() {
        let fork = fork_of(g, number as u32);
        let split = node_of(g.tree, number as u32).split;
        forks[split as usize] = fork;
    }
}

/// The start, or want of memory.
fn listed<'a>(g: Terrain<'a>, alloc: Global, workers: u32) -> Result<CoreState<'a>, AllocError>
    requires terrain { IsTerrain g }
    requires one { 0 < workers }
    requires few { workers ≤ MOST_WORKERS }
    requires rest { FitsButFor g.tree.now g.boxes.now g.live.now }
    ensures setting { IfOk result (λ s. setting_of s ≡ setting_on g.entry workers) }
    ensures start { IfOk result (λ s. IsStart (frame_of_core s) (state_of s)) }
    ensures lawful { IfOk result (λ s. IsLawful (frame_of_core s) (state_of s)) }
{
    let blank = Branch {
        opened: false,
        arrived: false,
        collected: false,
        place: Place::Nothing,
    };
    let node = Fork {
        left: blank,
        right: blank,
        returned: false,
    };
    let fresh = Climber {
        next: 0,
        from: 0,
        to: 0,
        phase: Phase::Looking,
        tally: Tally { fits: 0, steps: 0 },
    };
    let claimed = vec![in alloc; false; g.batches as usize]?;
    let climbers = vec![in alloc; fresh; workers as usize]?;
    let mut forks = vec![in alloc; node; g.tree.nodes().len()]?;
    start_forks(&g, &mut forks);
    Ok(CoreState::of(g, claimed, forks, climbers))
}

/// The machine before its first event.
///
/// The tree has two keys or more, `boxes[t - 1]` is the box of triangle `t`, and `live` are the positions whose boxes
/// may have changed, rising, one at least. The tree is fitted to some list of boxes that gives the triangle at every
/// other position the same box. There are 1 to `MOST_WORKERS` workers. It takes memory for two branches a node and a
/// claim bit a batch; the only error is want of memory.
pub fn start<'a>(
    alloc: Global,
    tree: &'a Tree,
    boxes: &'a [Box3],
    live: &'a [u32],
    workers: u32,
) -> Result<CoreState<'a>, Memory>
    requires task { IsTask (setting tree.now.keys boxes.now live.now workers) }
    requires few { workers ≤ MOST_WORKERS }
    requires rest { FitsButFor tree.now boxes.now live.now }
    ensures setting { IfOk result (λ s. setting_of s ≡ setting tree.now.keys boxes.now live.now workers) }
    ensures start { IfOk result (λ s. IsStart (frame_of_core s) (state_of s)) }
    ensures lawful { IfOk result (λ s. IsLawful (frame_of_core s) (state_of s)) }
{
    let _keys = tree.keys();
    let g = Terrain {
        tree,
        boxes,
        live,
        batches: live.len().div_ceil(BATCH) as u32,
    };
    listed(g, alloc, workers).map_err(|_| Memory)
}
