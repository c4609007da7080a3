//! A state of the machine, its one step, whole schedules, and what can be read off a state.
//!
//! Workers are numbered from 0, inner nodes are named by their splits. No call here takes memory.

ghost use Rattle.std.specs.Prelude.{◌≡◌, ◌↔◌, ℕ, ◌-◌, ◌^◌, ◌<◌, ◌≤◌, length, take, not, All, IfSome, true, false};
ghost use Rattle.arrival_core.specs.Sums.{bit, sum_below};
ghost use Rattle.arrival_core.specs.declared.packets.Load.{Load};
ghost use Rattle.arrival_core.specs.declared.packets.Phase.TheVariants.{Second, Ended};
ghost use Rattle.arrival_core.specs.Frames.{packet_at};
ghost use Rattle.arrival_core.specs.States.{resting_packet};
ghost use Rattle.arrival_core.specs.Events.{event, has_event};
ghost use Rattle.arrival_core.specs.Lawful.{IsLawful, Carries};
ghost use Rattle.arrival_core.specs.Safety.{IsExclusive, IsMet};
ghost use Rattle.arrival_core.specs.Replays.{state_after, event_count, collect_count};
ghost use Rattle.arrival_core.specs.Complete.{HaveEnded, IsComplete};
ghost use Rattle.arrival_core.specs.Stopped.{unreturned_count, Waits};
ghost use Rattle.arrival_core.specs.Cores.{setting_of, frame_of_core, state_of, IsCore, core_over};
ghost use Rattle.arrival_core.specs.Forks.{fork_at};

use crate::forks::{Climber, Fork, branch_at, climber_of};
use crate::stepping::advance;
use crate::terrains::Terrain;
use crate::{Packet, Phase, Place, Side, Tally};
use std::marker::Model;

/// A state of the machine over a tree, which it borrows. It is lawful at every moment (`IsLawful`).
#[derive(Debug, Drop)]
pub struct CoreState<'a> {
    terrain: Terrain<'a>,
    claimed: Vec<bool>,
    forks: Vec<Fork>,
    climbers: Vec<Climber>,
}

impl<'a> Model for CoreState<'a> {
    ghost use Rattle.std.specs.Prelude.{◌≡◌, length};
    ghost use Rattle.arrival_core.specs.Cores.{Core, IsCore, core_over};

    ghost Value = { Core };

    ghost view = { λ s. core_over s.terrain s.claimed.items s.forks.items s.climbers.items };

    ghost invariant = { λ s. (s.terrain.batches ≡ length s.claimed.items)
        × IsCore (core_over s.terrain s.claimed.items s.forks.items s.climbers.items) };
}

impl<'a> CoreState<'a> {
    /// The state of these lists.
    pub(crate) fn of(
        terrain: Terrain<'a>,
        claimed: Vec<bool>,
        forks: Vec<Fork>,
        climbers: Vec<Climber>,
    ) -> CoreState<'a>
        requires batches { terrain.batches ≡ length claimed.items }
        requires core { IsCore (core_over terrain claimed.items forks.items climbers.items) }
        ensures { result ≡ core_over terrain.entry claimed.items forks.items climbers.items }
    {
        CoreState {
            terrain,
            claimed,
            forks,
            climbers,
        }
    }
}

/// Does the one next event of a worker, and answers whether there was one: it answers false exactly where that worker
/// has ended, and then changes nothing.
pub fn step(s: &mut CoreState<'_>, worker: u32) -> bool
    requires { worker < (setting_of s.old).workers }
    ensures event { state_of s.new ≡ event (frame_of_core s.old) worker (state_of s.old) }
    ensures setting { setting_of s.new ≡ setting_of s.old }
    ensures answer { result ≡ has_event ((state_of s.old).worker worker).phase }
    ensures stays { result ≡ false → s.new ≡ s.old }
    ensures lawful { IsLawful (frame_of_core s.new) (state_of s.new) }
    ensures exclusive { IsExclusive (frame_of_core s.new) (state_of s.new) }
    ensures met { (l : Load) → ((state_of s.old).worker worker).phase ≡ Second l → IsMet (state_of s.old) l.split }
{
    advance(
        &s.terrain,
        s.claimed.as_mut_slice(),
        s.forks.as_mut_slice(),
        s.climbers.as_mut_slice(),
        worker,
    )
}

/// What a worker does next, with what it carries.
pub fn phase_of(s: &CoreState<'_>, worker: u32) -> Phase
    requires { worker < (setting_of s.now).workers }
    ensures value { result ≡ ((state_of s.now).worker worker).phase }
    ensures carries { Carries (frame_of_core s.now) (state_of s.now) result }
{
    climber_of(s.climbers.as_slice(), worker).phase
}

/// How many nodes a worker has fitted, and how many events it has had.
pub fn tally_of(s: &CoreState<'_>, worker: u32) -> Tally
    requires { worker < (setting_of s.now).workers }
    ensures { result ≡ ((state_of s.now).worker worker).tally }
{
    climber_of(s.climbers.as_slice(), worker).tally
}

/// The packet that rests in the place of one side of the node with that split. It is `None` exactly where the place
/// holds nothing or is out with a worker.
pub fn resting(s: &CoreState<'_>, split: u32, side: Side) -> Option<Packet>
    requires { split < (frame_of_core s.now).nodes }
    ensures value { result ≡ resting_packet ((state_of s.now).place split side) }
    ensures packet { IfSome result (λ p. p ≡ packet_at (frame_of_core s.now) split side) }
{
    resting_in(branch_at(s.forks.as_slice(), split, side).place)
}

/// The packet that rests in a place.
fn resting_in(place: Place) -> Option<Packet>
    ensures { result ≡ resting_packet place }
{
    match place {
        Place::Nothing => None,
        Place::Holds(packet) => Some(packet),
        Place::Out(_) => None,
    }
}

/// How many inner nodes are not returned. They are those above what some worker holds, so a worker that has stopped
/// keeps the nodes above what it holds from being fitted, and no others.
pub fn unfitted(s: &CoreState<'_>) -> u32
    ensures value { result ≡ unreturned_count (frame_of_core s.now) (state_of s.now) }
    ensures waits { (t : ℕ) → t < (frame_of_core s.now).nodes →
        ((state_of s.now).returned t ≡ false ↔ Waits (frame_of_core s.now) (state_of s.now) t) }
    ensures claimed { (k j : ℕ) → k < (setting_of s.now).workers → ((state_of s.now).worker k).phase ≡ Ended →
        j < (frame_of_core s.now).batches → (state_of s.now).claimed j ≡ true }
{
    unreturned(s.forks.as_slice())
}

/// How many of the nodes are not returned.
fn unreturned(forks: &[Fork]) -> u32
    requires { length forks.now < 2 ^ 32 }
    ensures { result ≡ sum_below (length forks.now) (λ t. bit (not (fork_at forks.now t).returned)) }
{
    let mut count = 0;
    for fork in forks {
        if !fork.returned {
            count += 1;
        }
    }
    count
}

/// A step for each number of a schedule, in order; it answers how many of them were an event. The number of a worker
/// that has ended does nothing.
pub fn replay(s: &mut CoreState<'_>, schedule: &[u32]) -> u64
    requires { All (λ k. k < (setting_of s.old).workers) schedule.now }
    ensures played { state_of s.new ≡ state_after (frame_of_core s.old) schedule.now (state_of s.old) }
    ensures setting { setting_of s.new ≡ setting_of s.old }
    ensures counted { result ≡ event_count (frame_of_core s.old) schedule.now (state_of s.old) }
    ensures passes { (n : ℕ) → let f = frame_of_core s.old in
        IsLawful f (state_after f (take n schedule.now) (state_of s.old)) }
    ensures once { (t : ℕ) → t < (frame_of_core s.old).nodes →
        collect_count (frame_of_core s.old) schedule.now t (state_of s.old) ≤ 1 }
    ensures complete { HaveEnded (frame_of_core s.new) (state_of s.new) →
        IsComplete (frame_of_core s.new) (state_of s.new) }
{
    // a state is lawful as it comes in
    let _nodes = s.forks.len();
    let mut count = 0;
    for worker in schedule {
        count += u64::from(step(s, *worker));
    }
    count
}

#[cfg(test)]
mod tests;
