//! One passage of a node. Who comes first leaves its packet there; who comes second finds it, and takes the node's
//! packet away.
ghost use Rattle.std.specs.Prelude.{◌≡◌, ◌<◌, ◌≤◌, ◌+◌, ◌^◌, [], true, false, IfNone, IfSome};
ghost use Rattle.arrival_core.specs.Events.{join};
ghost use Rattle.arrival_core.specs.Frames.{other, packet_at};
ghost use Rattle.arrival_core.specs.declared.packets.Phase.TheVariants.{Carry, Second};
ghost use Rattle.box_handoff.specs.LiveNodes.{slotted};
ghost use Rattle.box_handoff.specs.Rule.{slot};
ghost use Rattle.box_handoff.specs.Slots.{packed};
ghost use Rattle.box_handoff.specs.Made.{given_in, frame_in, numbers_in};
ghost use Rattle.box_handoff.specs.Entries.{IsGiven, one, worker_of};
ghost use Rattle.box_handoff.specs.Plays.{mine, IsSmall, lent};
ghost use Rattle.box_handoff.specs.Climbs.{Climbed, IsCarried, IsPlace, IsTold, came_first, finds_other, leaves_with, came_second};

use crate::numbering::place_of;
use crate::plays::{HandTable, TableSeat};
use crate::resting::told;
use crate::slots::unpack;
use crate::steps::{Opposite, across, arrive, collect, leave, look, open, put, slot_of};
use crate::views::About;
use crate::{Load, Packet, Side};
use fixed_box::union;

/// The packet of a node, from that of one child and that of the other.
fn joined(load: &Load, found: &Packet) -> Packet
    ensures { result ≡ join load.now.split load.now.side load.now.packet found.now }
{
    match load.side {
        Side::Left => Packet {
            first: load.packet.first,
            last: found.last,
            split: load.split,
            fit: union(&load.packet.fit, &found.fit),
        },
        Side::Right => Packet {
            first: found.first,
            last: load.packet.last,
            split: load.split,
            fit: union(&found.fit, &load.packet.fit),
        },
    }
}

/// Whether the child whose packet a worker carries has a slot: it is live, so it has one if it is an inner node.
fn is_inner(packet: &Packet) -> bool
    ensures yes { result ≡ true → packet.now.first < packet.now.last }
    ensures no { result ≡ false → packet.now.last ≤ packet.now.first }
{
    packet.first < packet.last
}

/// Leaves a load's packet at its node. The answer is what is found of the other side.
fn come(
    table: &HandTable<'_>,
    seat: &mut TableSeat,
    base: usize,
    place: usize,
    load: &Load,
) -> Opposite
    requires table { seat.old.table_id ≡ table.now.table_id }
    requires over { IsTold table.now.key.value table.now.key table.now.table_id base }
    requires one { seat.old.me.0 ≡ one (given_in table.now.key) (mine seat.old.me) }
    requires home { seat.old.me.1 ≡ [] }
    requires phase { (mine seat.old.me).phase ≡ Carry load.now }
    requires load { IsCarried (frame_in table.now.key) load.now }
    requires place { IsPlace (given_in table.now.key) place load.now.split }
    requires small { place < 2 ^ 32 }
    ensures climbed { Climbed (given_in table.now.key) seat.old seat.new }
    ensures small { IsSmall (mine seat.old.me).tally }
    ensures other { result.arrived ≡ true →
        result.handed ≡ slotted (frame_in table.now.key) load.now.split (other load.now.side) }
    ensures first { result.arrived ≡ false →
        worker_of (mine seat.new.me) ≡ came_first (frame_in table.now.key) (mine seat.old.me) }
    ensures second { result.arrived ≡ true → worker_of (mine seat.new.me) ≡ finds_other load.now (mine seat.old.me) }
{
    let handed = is_inner(&load.packet);
    open(table, seat, base, place, load, handed);
    put(table, seat, place, load, handed);
    arrive(table, seat, base, place, load, handed)
}

/// The packet of the other side's child: what stands in its slot, which is out with the seat, or is told without one.
fn found_there(
    table: &HandTable<'_>,
    about: &About<'_>,
    seat: &mut TableSeat,
    place: usize,
    load: &Load,
    handed: bool,
) -> Packet
    requires key { table.now.key.value ≡ about.now }
    requires table { seat.old.table_id ≡ table.now.table_id }
    requires room { place < 2 ^ 60 }
    requires handed { handed ≡ slotted (frame_in table.now.key) load.now.split (other load.now.side) }
    requires out { seat.old.me.1 ≡ lent handed (slot place (other load.now.side))
        (packed (other load.now.side) (packet_at (frame_in table.now.key) load.now.split (other load.now.side))) [] }
    requires load { IsCarried (frame_in table.now.key) load.now }
    requires given { IsGiven (given_in table.now.key) }
    ensures table { (seat.new.table_id ≡ seat.old.table_id) × (seat.new.id ≡ seat.old.id) }
    ensures same { seat.new.me ≡ seat.old.me }
    ensures found { result ≡ packet_at (frame_in table.now.key) load.now.split (other load.now.side) }
{
    let theirs = across(load.side);
    if !handed {
        return told(about, load.split, theirs);
    }
    let kept = look(table, seat, slot_of(place, theirs));
    unpack(load.split, theirs, &kept)
}

/// Takes what the other side left at a load's node, and gives the node back. The answer is the other side's packet.
fn take_other(
    table: &HandTable<'_>,
    about: &About<'_>,
    seat: &mut TableSeat,
    base: usize,
    place: usize,
    load: &Load,
    handed: bool,
) -> Packet
    requires handed { handed ≡ slotted (frame_in table.now.key) load.now.split (other load.now.side) }
    requires table { seat.old.table_id ≡ table.now.table_id }
    requires over { IsTold about.now table.now.key table.now.table_id base }
    requires one { seat.old.me.0 ≡ one (given_in table.now.key) (mine seat.old.me) }
    requires home { seat.old.me.1 ≡ [] }
    requires phase { (mine seat.old.me).phase ≡ Second load.now }
    requires load { IsCarried (frame_in table.now.key) load.now }
    requires place { IsPlace (given_in table.now.key) place load.now.split }
    requires small { place < 2 ^ 32 }
    ensures climbed { Climbed (given_in table.now.key) seat.old seat.new }
    ensures found { result ≡ packet_at (frame_in table.now.key) load.now.split (other load.now.side) }
    ensures worker { worker_of (mine seat.new.me) ≡ leaves_with (frame_in table.now.key) load.now result
        (worker_of (mine seat.old.me)) }
{
    collect(table, seat, base, place, load, handed);
    let found = found_there(table, about, seat, place, load, handed);
    leave(table, seat, base, place, load, &found, handed);
    found
}

/// Hands a load to its node. The answer is the node's packet, where the other side had arrived before.
pub fn pass_node(
    table: &HandTable<'_>,
    about: &About<'_>,
    seat: &mut TableSeat,
    base: usize,
    load: &Load,
) -> Option<Packet>
    requires table { seat.old.table_id ≡ table.now.table_id }
    requires over { IsTold about.now table.now.key table.now.table_id base }
    requires one { seat.old.me.0 ≡ one (given_in table.now.key) (mine seat.old.me) }
    requires home { seat.old.me.1 ≡ [] }
    requires phase { (mine seat.old.me).phase ≡ Carry load.now }
    requires load { IsCarried (frame_in table.now.key) load.now }
    ensures climbed { Climbed (given_in table.now.key) seat.old seat.new }
    ensures small { IsSmall (mine seat.old.me).tally }
    ensures packet { IfSome result (λ p. p ≡ (frame_in table.now.key).node_packet load.now.split) }
    ensures first { IfNone result
        (worker_of (mine seat.new.me) ≡ came_first (frame_in table.now.key) (mine seat.old.me)) }
    ensures second { IfSome result (λ p.
        worker_of (mine seat.new.me) ≡ came_second (frame_in table.now.key) load.now.split p (mine seat.old.me)) }
{
    let place = place_of(about, load.split);
    let across = come(table, seat, base, place, load);
    if !across.arrived {
        return None;
    }
    let found = take_other(table, about, seat, base, place, load, across.handed);
    Some(joined(load, &found))
}
