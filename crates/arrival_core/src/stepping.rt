//! The five events, each on the lists that it writes.

ghost use Rattle.std.specs.Prelude.{◌≡◌, ℕ, ◌+◌, ◌-◌, ◌/◌, ◌^◌, ◌<◌, ◌≤◌, length, List, Bool, false, slice_set};
ghost use Rattle.arrival_core.specs.Settings.{batch_count};
ghost use Rattle.arrival_core.specs.declared.packets.Phase.TheVariants.{Opened, Second, Collecting};
ghost use Rattle.arrival_core.specs.declared.packets.TheConstants.{BATCH};
ghost use Rattle.arrival_core.specs.declared.forks.Fork.{Fork};
ghost use Rattle.arrival_core.specs.Forks.{fork_at, climber_at, shown, HasPart, MayStep};
ghost use Rattle.arrival_core.specs.Events.{has_event, take, open_side, arrive, collect, leave, stepped, event};
ghost use Rattle.arrival_core.specs.Terrains.{IsTerrain, frame_at};
ghost use Rattle.arrival_core.specs.Cores.{IsCore, core_over};

use crate::forks::{
    Branch, Climber, Fork, across, branch_at, climber_of, packet_in, put_branch, put_returned,
};
use crate::resuming::{after_arrival, after_leaving, after_taking, one_step};
use crate::terrains::Terrain;
use crate::{Load, Packet, Phase, Place};

/// A worker goes on in another phase, after an event that left its batch and its positions.
fn go_on(climbers: &mut [Climber], k: u32, phase: Phase)
    requires worker { k < length climbers.old }
    requires room { MayStep (climber_at climbers.old k) }
    ensures { climbers.new ≡ slice_set climbers.old k
        (record (climber_at climbers.old k) { phase = phase; tally = stepped (climber_at climbers.old k).tally }) }
{
    let was = climber_of(climbers, k);
    climbers[k as usize] = Climber {
        next: was.next,
        from: was.from,
        to: was.to,
        phase,
        tally: one_step(was.tally),
    };
}

/// A worker opens a side.
pub(crate) fn open(forks: &mut [Fork], climbers: &mut [Climber], k: u32, l: Load)
    requires node { l.split < length forks.old }
    requires worker { k < length climbers.old }
    requires room { MayStep (climber_at climbers.old k) }
    ensures state { (live : List ℕ) (claimed : List Bool) →
        shown live claimed forks.new climbers.new ≡ open_side k l (shown live claimed forks.old climbers.old) }
    ensures forks { length forks.new ≡ length forks.old }
    ensures climbers { length climbers.new ≡ length climbers.old }
    ensures parts { (n j : ℕ) → HasPart n (climber_at climbers.old j) → HasPart n (climber_at climbers.new j) }
{
    let was = branch_at(forks, l.split, l.side);
    let now = Branch {
        opened: true,
        arrived: was.arrived,
        collected: was.collected,
        place: Place::Out(k),
    };
    put_branch(forks, l.split, l.side, now);
    go_on(climbers, k, Phase::Opened(l));
}

/// A worker arrives at a side.
pub(crate) fn arrive(g: &Terrain<'_>, forks: &mut [Fork], climbers: &mut [Climber], k: u32, l: Load)
    requires terrain { IsTerrain g.now }
    requires node { l.split < length forks.old }
    requires worker { k < length climbers.old }
    requires room { MayStep (climber_at climbers.old k) }
    requires part { HasPart (length g.now.live.now) (climber_at climbers.old k) }
    ensures state { (workers : ℕ) (claimed : List Bool) →
        shown g.now.live.now claimed forks.new climbers.new
        ≡ arrive (frame_at g.now workers) k l (shown g.now.live.now claimed forks.old climbers.old) }
    ensures forks { length forks.new ≡ length forks.old }
    ensures climbers { length climbers.new ≡ length climbers.old }
    ensures parts { (j : ℕ) → HasPart (length g.now.live.now) (climber_at climbers.old j) →
        HasPart (length g.now.live.now) (climber_at climbers.new j) }
{
    let was = branch_at(forks, l.split, l.side);
    let second = branch_at(forks, l.split, across(l.side)).arrived;
    let now = Branch {
        opened: was.opened,
        arrived: true,
        collected: was.collected,
        place: Place::Holds(l.packet),
    };
    put_branch(forks, l.split, l.side, now);
    let climber = climber_of(climbers, k);
    climbers[k as usize] = after_arrival(g, climber, l, second);
}

/// A worker collects from the other side.
pub(crate) fn collect(forks: &mut [Fork], climbers: &mut [Climber], k: u32, l: Load)
    requires node { l.split < length forks.old }
    requires worker { k < length climbers.old }
    requires room { MayStep (climber_at climbers.old k) }
    ensures state { (live : List ℕ) (claimed : List Bool) →
        shown live claimed forks.new climbers.new ≡ collect k l (shown live claimed forks.old climbers.old) }
    ensures forks { length forks.new ≡ length forks.old }
    ensures climbers { length climbers.new ≡ length climbers.old }
    ensures parts { (n j : ℕ) → HasPart n (climber_at climbers.old j) → HasPart n (climber_at climbers.new j) }
{
    let side = across(l.side);
    let was = branch_at(forks, l.split, side);
    let now = Branch {
        opened: was.opened,
        arrived: was.arrived,
        collected: true,
        place: Place::Out(k),
    };
    put_branch(forks, l.split, side, now);
    go_on(
        climbers,
        k,
        Phase::Collecting(l, packet_in(was.place, l.packet)),
    );
}

/// A worker leaves a node.
pub(crate) fn leave(
    g: &Terrain<'_>,
    forks: &mut [Fork],
    climbers: &mut [Climber],
    k: u32,
    l: Load,
    found: Packet,
)
    requires terrain { IsTerrain g.now }
    requires node { l.split < length forks.old }
    requires nodes { length forks.old ≡ length g.now.tree.now.keys - 1 }
    requires worker { k < length climbers.old }
    requires room { MayStep (climber_at climbers.old k) }
    requires part { HasPart (length g.now.live.now) (climber_at climbers.old k) }
    ensures state { (workers : ℕ) (claimed : List Bool) →
        shown g.now.live.now claimed forks.new climbers.new
        ≡ leave (frame_at g.now workers) k l found (shown g.now.live.now claimed forks.old climbers.old) }
    ensures forks { length forks.new ≡ length forks.old }
    ensures climbers { length climbers.new ≡ length climbers.old }
    ensures parts { (j : ℕ) → HasPart (length g.now.live.now) (climber_at climbers.old j) →
        HasPart (length g.now.live.now) (climber_at climbers.new j) }
{
    let side = across(l.side);
    let was = branch_at(forks, l.split, side);
    let now = Branch {
        opened: was.opened,
        arrived: was.arrived,
        collected: was.collected,
        place: Place::Holds(found),
    };
    put_branch(forks, l.split, side, now);
    put_returned(forks, l.split);
    let climber = climber_of(climbers, k);
    climbers[k as usize] = after_leaving(g, climber, l, found);
}

/// A worker takes its next batch.
pub(crate) fn take(g: &Terrain<'_>, claimed: &mut [bool], climbers: &mut [Climber], k: u32)
    requires terrain { IsTerrain g.now }
    requires next { (climber_at climbers.old k).next < batch_count g.now.live.now }
    requires batches { length claimed.old ≡ batch_count g.now.live.now }
    requires worker { k < length climbers.old }
    requires room { MayStep (climber_at climbers.old k) }
    ensures state { (workers : ℕ) (forks : List Fork) →
        shown g.now.live.now claimed.new forks climbers.new
        ≡ take (frame_at g.now workers) k (shown g.now.live.now claimed.old forks climbers.old) }
    ensures claimed { length claimed.new ≡ length claimed.old }
    ensures climbers { length climbers.new ≡ length climbers.old }
    ensures parts { (j : ℕ) → HasPart (length g.now.live.now) (climber_at climbers.old j) →
        HasPart (length g.now.live.now) (climber_at climbers.new j) }
{
    let climber = climber_of(climbers, k);
    let was = claimed[climber.next as usize];
    claimed[climber.next as usize] = true;
    climbers[k as usize] = after_taking(g, climber, was);
}

/// A worker has its next event, if it has one.
#[tactic(auto, unfolding(crate::specs::Events::has_event))]
pub(crate) fn advance(
    g: &Terrain<'_>,
    claimed: &mut [bool],
    forks: &mut [Fork],
    climbers: &mut [Climber],
    k: u32,
) -> bool
    requires terrain { IsTerrain g.now }
    requires core { IsCore (core_over g.now claimed.old forks.old climbers.old) }
    requires worker { k < length climbers.old }
    ensures state { (workers : ℕ) →
        shown g.now.live.now claimed.new forks.new climbers.new
        ≡ event (frame_at g.now workers) k (shown g.now.live.now claimed.old forks.old climbers.old) }
    ensures answer { result ≡ has_event (climber_at climbers.old k).phase }
    ensures stays_claimed { result ≡ false → claimed.new ≡ claimed.old }
    ensures stays_forks { result ≡ false → forks.new ≡ forks.old }
    ensures stays_climbers { result ≡ false → climbers.new ≡ climbers.old }
    ensures batches { length claimed.new ≡ length claimed.old }
    ensures nodes { length forks.new ≡ length forks.old }
    ensures climbers { length climbers.new ≡ length climbers.old }
    ensures parts { (j : ℕ) → HasPart (length g.now.live.now) (climber_at climbers.new j) }
{
    match climber_of(climbers, k).phase {
        Phase::Looking => {
            take(g, claimed, climbers, k);
            true
        }
        Phase::Carry(l) => {
            open(forks, climbers, k, l);
            true
        }
        Phase::Opened(l) => {
            arrive(g, forks, climbers, k, l);
            true
        }
        Phase::Second(l) => {
            collect(forks, climbers, k, l);
            true
        }
        Phase::Collecting(l, found) => {
            leave(g, forks, climbers, k, l, found);
            true
        }
        Phase::Ended => false,
    }
}
