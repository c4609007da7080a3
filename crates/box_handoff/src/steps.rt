//! The five steps of a worker on the words, and the slots between them.
ghost use Rattle.std.specs.Prelude.{◌≡◌, ◌<◌, ◌+◌, ◌^◌, ℕ, [], ◌∷◌, ◌++◌, length, Some, None, true, false, if◌then◌else◌};
ghost use Rattle.box_handoff.specs.Made.{given_in, frame_in, numbers_in};
ghost use Rattle.box_handoff.specs.Entries.{numbers, frame, given_of, one, worker_of};
ghost use Rattle.box_handoff.specs.Slots.{packed, blank};
ghost use Rattle.box_handoff.specs.declared.slots.SlotPacket.{SlotPacket};
ghost use Rattle.box_handoff.specs.LiveNodes.{slotted};
ghost use Rattle.box_handoff.specs.Rule.{slot, side_no, opened_bit};
ghost use Rattle.box_handoff.specs.Plays.{mine, next_view, IsSmall, lent};
ghost use Rattle.box_handoff.specs.Climbs.{IsPlace, Did, in_phase};
ghost use Rattle.arrival_core.specs.Events.{resume, stepped, go_up, join};
ghost use Rattle.arrival_core.specs.Frames.{other, packet_at};
ghost use Rattle.arrival_core.specs.declared.packets.Phase.TheVariants.{Looking, Carry, Opened, Second, Collecting, Ended};
ghost use Rattle.box_handoff.specs.declared.views.Event.TheVariants.{Take, Open, Arrive, Collect, Leave};

use crate::plays::{Arrives, Collects, HandTable, Leaves, Opens, TableSeat, Takes};
use crate::slots::{SlotPacket, pack};
use crate::words::{ARRIVED, CLAIMED, COLLECTED, HANDED, OPENED, RETURNED, bit_of, is_set, mask};
use crate::{Load, Packet, Side};

/// The other side.
pub fn across(side: Side) -> Side
    ensures { result ≡ other side }
{
    match side {
        Side::Left => Side::Right,
        Side::Right => Side::Left,
    }
}

/// The slot of a child, by its parent's number and its side there.
pub fn slot_of(place: usize, side: Side) -> usize
    requires { place < 2 ^ 60 }
    ensures { result ≡ slot place side }
{
    place + bit_of(0, side) as usize
}

/// The bit that is set where a side is opened, by whether the child has a slot.
fn opening_bit(handed: bool, side: Side) -> u32
    ensures { result ≡ opened_bit handed + side_no side }
{
    let first = if handed { HANDED } else { OPENED };
    bit_of(first, side)
}

/// Claims a batch. The answer is whether it was claimed before.
pub fn take(table: &HandTable<'_>, seat: &mut TableSeat, batch: usize) -> bool
    requires table { seat.old.table_id ≡ table.now.table_id }
    requires words { let f = frame_in table.now.key in table.now.table_id.words ≡ f.batches +
        (numbers_in table.now.key).count }
    requires one { seat.old.me.0 ≡ one (given_in table.now.key) (mine seat.old.me) }
    requires phase { (mine seat.old.me).phase ≡ Looking }
    requires batch { (mine seat.old.me).next ≡ batch }
    requires within { batch < (frame_in table.now.key).batches }
    ensures table { (seat.new.table_id ≡ seat.old.table_id) × (seat.new.id ≡ seat.old.id) }
    ensures did { Did (given_in table.now.key) seat.old.me seat.new.me (Take result) }
    ensures out { seat.new.me.1 ≡ seat.old.me.1 }
    ensures worker { let e = mine seat.old.me in worker_of (mine seat.new.me) ≡ resume (frame_in table.now.key)
        (e.next + 1) (if result then [] else (frame_in table.now.key).batch e.next) (stepped e.tally) }
{
    is_set(table.fetch_or::<Takes>(seat, batch, mask(CLAIMED)), CLAIMED)
}

/// Opens a side of a node. If the child has a slot, that goes out to the seat, blank.
pub fn open(
    table: &HandTable<'_>,
    seat: &mut TableSeat,
    base: usize,
    place: usize,
    load: &Load,
    handed: bool,
)
    requires table { seat.old.table_id ≡ table.now.table_id }
    requires words { let f = frame_in table.now.key in (base ≡ f.batches)
        × (table.now.table_id.words ≡ f.batches + (numbers_in table.now.key).count) }
    requires one { seat.old.me.0 ≡ one (given_in table.now.key) (mine seat.old.me) }
    requires phase { (mine seat.old.me).phase ≡ Carry load.now }
    requires place { IsPlace (given_in table.now.key) place load.now.split }
    requires room { table.now.table_id.words < 2 ^ 60 }
    requires handed { handed ≡ slotted (frame_in table.now.key) load.now.split load.now.side }
    ensures table { (seat.new.table_id ≡ seat.old.table_id) × (seat.new.id ≡ seat.old.id) }
    ensures did { Did (given_in table.now.key) seat.old.me seat.new.me Open }
    ensures out { seat.new.me.1 ≡ lent handed (slot place load.now.side) blank seat.old.me.1 }
    ensures worker { worker_of (mine seat.new.me) ≡ in_phase (mine seat.old.me) (Opened load.now) }
{
    let bit = opening_bit(handed, load.side);
    table.fetch_or::<Opens>(seat, base + place, mask(bit));
}

/// Puts the packet into the slot that is out with the seat, if one is.
pub fn put(table: &HandTable<'_>, seat: &mut TableSeat, place: usize, load: &Load, handed: bool)
    requires table { seat.old.table_id ≡ table.now.table_id }
    requires out { seat.old.me.1 ≡ lent handed (slot place load.now.side) blank [] }
    requires room { place < 2 ^ 60 }
    ensures table { (seat.new.table_id ≡ seat.old.table_id) × (seat.new.id ≡ seat.old.id) }
    ensures out { seat.new.me ≡ (
      seat.old.me.0,
      lent handed (slot place load.now.side) (packed load.now.side load.now.packet) [],
    ) }
{
    if !handed {
        return;
    }
    table.exchange(
        seat,
        slot_of(place, load.side),
        pack(load.side, &load.packet),
    );
}

/// What a worker finds of the other side where it arrives: whether that had arrived before, and whether the child there
/// has a slot.
#[derive(Clone, Copy)]
pub struct Opposite {
    pub arrived: bool,
    pub handed: bool,
}

/// Arrives at a node: the slot goes back, if one is out. The answer is what is found of the other side.
pub fn arrive(
    table: &HandTable<'_>,
    seat: &mut TableSeat,
    base: usize,
    place: usize,
    load: &Load,
    handed: bool,
) -> Opposite
    requires table { seat.old.table_id ≡ table.now.table_id }
    requires words { let f = frame_in table.now.key in (base ≡ f.batches)
        × (table.now.table_id.words ≡ f.batches + (numbers_in table.now.key).count) }
    requires one { seat.old.me.0 ≡ one (given_in table.now.key) (mine seat.old.me) }
    requires phase { (mine seat.old.me).phase ≡ Opened load.now }
    requires place { IsPlace (given_in table.now.key) place load.now.split }
    requires room { table.now.table_id.words < 2 ^ 60 }
    requires handed { handed ≡ slotted (frame_in table.now.key) load.now.split load.now.side }
    requires out { seat.old.me.1 ≡
        lent handed (slot place load.now.side) (packed load.now.side load.now.packet) [] }
    ensures table { (seat.new.table_id ≡ seat.old.table_id) × (seat.new.id ≡ seat.old.id) }
    ensures did { Did (given_in table.now.key) seat.old.me seat.new.me (Arrive result.arrived) }
    ensures out { seat.new.me.1 ≡ [] }
    ensures other { result.arrived ≡ true →
        result.handed ≡ slotted (frame_in table.now.key) load.now.split (other load.now.side) }
    ensures second { result.arrived ≡ true → worker_of (mine seat.new.me) ≡ in_phase (mine seat.old.me) (Second load.now) }
    ensures first { result.arrived ≡ false → worker_of (mine seat.new.me) ≡ resume (frame_in table.now.key)
        (mine seat.old.me).next (mine seat.old.me).pending (stepped (mine seat.old.me).tally) }
{
    let bit = bit_of(ARRIVED, load.side);
    let found = table.fetch_or::<Arrives>(seat, base + place, mask(bit));
    let theirs = across(load.side);
    Opposite {
        arrived: is_set(found, bit_of(ARRIVED, theirs)),
        handed: is_set(found, bit_of(HANDED, theirs)),
    }
}

/// Collects at a node: the other child's slot goes out to the seat, if it has one.
pub fn collect(
    table: &HandTable<'_>,
    seat: &mut TableSeat,
    base: usize,
    place: usize,
    load: &Load,
    handed: bool,
)
    requires table { seat.old.table_id ≡ table.now.table_id }
    requires words { let f = frame_in table.now.key in (base ≡ f.batches)
        × (table.now.table_id.words ≡ f.batches + (numbers_in table.now.key).count) }
    requires one { seat.old.me.0 ≡ one (given_in table.now.key) (mine seat.old.me) }
    requires phase { (mine seat.old.me).phase ≡ Second load.now }
    requires place { IsPlace (given_in table.now.key) place load.now.split }
    requires room { table.now.table_id.words < 2 ^ 60 }
    requires handed { handed ≡ slotted (frame_in table.now.key) load.now.split (other load.now.side) }
    ensures table { (seat.new.table_id ≡ seat.old.table_id) × (seat.new.id ≡ seat.old.id) }
    ensures did { Did (given_in table.now.key) seat.old.me seat.new.me Collect }
    ensures out { seat.new.me.1 ≡ lent handed (slot place (other load.now.side))
        (packed (other load.now.side) (packet_at (frame_in table.now.key) load.now.split (other load.now.side)))
        seat.old.me.1 }
    ensures worker { worker_of (mine seat.new.me) ≡ in_phase (mine seat.old.me)
        (Collecting load.now (packet_at (frame_in table.now.key) load.now.split (other load.now.side))) }
{
    let bit = bit_of(COLLECTED, across(load.side));
    table.fetch_or::<Collects>(seat, base + place, mask(bit));
}

/// Reads what the slot that is out with the seat keeps.
pub fn look(table: &HandTable<'_>, seat: &mut TableSeat, slot: usize) -> SlotPacket
    requires table { seat.old.table_id ≡ table.now.table_id }
    requires out { (k : SlotPacket) × (seat.old.me.1 ≡ (slot, k) ∷ []) }
    ensures table { (seat.new.table_id ≡ seat.old.table_id) × (seat.new.id ≡ seat.old.id) }
    ensures same { seat.new.me ≡ seat.old.me }
    ensures found { seat.old.me.1 ≡ (slot, result) ∷ [] }
{
    *seat.slot_mut(table, slot)
}

/// Leaves a node: the other child's slot goes back, if it has one, and the node is returned.
pub fn leave(
    table: &HandTable<'_>,
    seat: &mut TableSeat,
    base: usize,
    place: usize,
    load: &Load,
    found: &Packet,
    handed: bool,
)
    requires table { seat.old.table_id ≡ table.now.table_id }
    requires words { let f = frame_in table.now.key in (base ≡ f.batches)
        × (table.now.table_id.words ≡ f.batches + (numbers_in table.now.key).count) }
    requires one { seat.old.me.0 ≡ one (given_in table.now.key) (mine seat.old.me) }
    requires phase { (mine seat.old.me).phase ≡ Collecting load.now found.now }
    requires place { IsPlace (given_in table.now.key) place load.now.split }
    requires room { table.now.table_id.words < 2 ^ 60 }
    requires handed { handed ≡ slotted (frame_in table.now.key) load.now.split (other load.now.side) }
    requires out { seat.old.me.1 ≡
        lent handed (slot place (other load.now.side)) (packed (other load.now.side) found.now) [] }
    ensures table { (seat.new.table_id ≡ seat.old.table_id) × (seat.new.id ≡ seat.old.id) }
    ensures did { Did (given_in table.now.key) seat.old.me seat.new.me Leave }
    ensures out { seat.new.me.1 ≡ [] }
    ensures worker { worker_of (mine seat.new.me) ≡ go_up (frame_in table.now.key)
        ((frame_in table.now.key).above_node load.now.split)
        (join load.now.split load.now.side load.now.packet found.now) (worker_of (mine seat.old.me)) }
{
    table.fetch_or::<Leaves>(seat, base + place, mask(RETURNED));
}
