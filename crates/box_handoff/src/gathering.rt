//! Seats that have ended are made one, their table is closed, and its packets are read out.
ghost use Rattle.std.specs.Prelude.{◌≡◌, ◌<◌, ◌+◌, ◌*◌, ◌≤◌, ℕ, [], length, All, slice_index, slice_index_or, vec_capacity, true, false};
ghost use Rattle.arrival_core.specs.declared.packets.Side.TheVariants.{Left, Right};
ghost use Rattle.arrival_core.specs.declared.packets.TheConstants.{MOST_WORKERS};
ghost use Rattle.box_handoff.specs.Made.{given_in};
ghost use Rattle.box_handoff.specs.LiveNodes.{slotted, splits_of};
ghost use Rattle.box_handoff.specs.Entries.{IsGiven, frame, numbers, given_of};
ghost use Rattle.box_handoff.specs.Packets.{ArePacketsOf, child_packet};
ghost use Rattle.arrival_core.specs.Frames.{packet_at};
ghost use Rattle.box_handoff.specs.Slots.{packed};
ghost use Rattle.box_handoff.specs.Plays.{IsSmall};
ghost use Rattle.box_handoff.specs.Seats.{seat_fits, seat_steps, given_by, setting_by, AreAll, IsSumOf};
ghost use Rattle.box_handoff.specs.Counts.{IsLiveCounted};
ghost use Rattle.box_handoff.specs.Gathering.{
  HasEnded,
  Covers,
  AllEnded,
  AreFlags,
  IsTaken,
  IsTaking,
  HasBefore,
  fits_of,
  steps_of,
};

use crate::climbing::batches_of;
use crate::handoffs::Handoff;
use crate::numbering::spot_of;
use crate::plays::{Gathers, HandTable, TableSeat};
use crate::resting::told;
use crate::seats::HandSeat;
use crate::slots::{SlotPacket, unpack};
use crate::views::About;
use crate::words::{HANDED, bit_of, is_set};
use crate::{Packet, Side, Tally};
use atomic_table::Closed;
use std::alloc::Global;

/// The entries of all these seats, and of the first, go to the first, and their tallies are added up.
fn gather(
    table: &HandTable<'_>,
    mut seats: Vec<HandSeat>,
    mut first: TableSeat,
    start: Tally,
) -> (TableSeat, Tally)
    requires table { first.table_id ≡ table.now.table_id }
    requires words { 0 < table.now.table_id.words }
    requires home { first.me.1 ≡ [] }
    requires given { first.me.0.given ≡ given_in table.now.key }
    requires over { AllEnded first.me.0 }
    requires ended { All (HasEnded (given_in table.now.key) table.now.table_id) seats.items }
    requires few { length seats.items < MOST_WORKERS }
    requires start { IsSmall start }
    requires fits { start.fits ≡ fits_of first.me.0 }
    requires steps { start.steps ≡ steps_of first.me.0 }
    ensures table { result.0.table_id ≡ table.now.table_id }
    ensures home { result.0.me.1 ≡ [] }
    ensures covers { (k : ℕ) (s : HandSeat) → k < length seats.items →
        Covers (slice_index_or seats.items k s).number result.0.me.0 }
    ensures kept { (k : ℕ) → Covers k first.me.0 → Covers k result.0.me.0 }
    ensures fits { result.1.fits ≡ fits_of result.0.me.0 }
    ensures steps { result.1.steps ≡ steps_of result.0.me.0 }
    ensures fits_sum { result.1.fits ≡ start.fits + seat_fits seats.items }
    ensures steps_sum { result.1.steps ≡ start.steps + seat_steps seats.items }
{
    let mut sum = start;
    while let Some(other) = seats.pop() {
        let HandSeat {
            seat,
            number: _,
            ended: _,
            tally,
        } = other;
        table.join_seat::<Gathers>(&mut first, seat);
        sum.fits += tally.fits;
        sum.steps += tally.steps;
    }
    (first, sum)
}

/// All seats are made one, and their table is closed. The tallies are added up.
pub fn finish<'a>(
    handoff: Handoff<'a>,
    mut seats: Vec<HandSeat>,
) -> (Closed<SlotPacket, Global>, About<'a>, Tally)
    requires seats { AreAll handoff seats.items }
    ensures about { result.1 ≡ handoff.entry.about }
    ensures taking { let slots = result.0.slots in
        IsTaking (given_by handoff.entry) slots.items slots.filled slots.len 0 }
    ensures flags { let words = result.0.words in
        AreFlags (given_by handoff.entry) words.items words.filled words.len }
    ensures sum { IsSumOf seats.items result.2 }
    ensures live_counts { IsLiveCounted (setting_by handoff.entry) result.2 }
{
    let Handoff { table, about } = handoff;
    let Some(last) = seats.pop() else {
        unreachable!()
    };
    let HandSeat {
        seat,
        number: _,
        ended: _,
        tally: of_last,
    } = last;
    let (seat, tally) = gather(&table.shared, seats, seat, of_last);
    (table.close_with(seat), about, tally)
}

/// The packet of a child of the node with that split, if it has a slot, which keeps this.
fn slot_packet(
    about: &About<'_>,
    split: u32,
    side: Side,
    handed: bool,
    kept: &SlotPacket,
) -> Option<Packet>
    requires given { IsGiven (given_of about.now) }
    requires within { split < (frame (given_of about.now)).nodes }
    requires handed { handed ≡ slotted (frame (given_of about.now)) split side }
    requires kept { handed ≡ true → kept.now ≡ packed side (packet_at (frame (given_of about.now)) split side) }
    ensures { IsTaken (given_of about.now) split side result }
{
    if !handed {
        return None;
    }
    Some(unpack(split, side, kept))
}

/// The packet of a child of the node with that split: what was taken out of its slot, or told without one.
pub fn taken_or_told(about: &About<'_>, split: u32, side: Side, taken: &Option<Packet>) -> Packet
    requires given { IsGiven (given_of about.now) }
    requires within { split < (frame (given_of about.now)).nodes }
    requires taken { IsTaken (given_of about.now) split side taken.now }
    ensures { result ≡ child_packet about.now.keys.now about.now.boxes.now split side }
{
    match taken {
        Some(packet) => *packet,
        None => told(about, split, side),
    }
}

/// Takes the packets of those children of the live node of a number that have slots out of a closed table. The slot before
/// the node is out already, and the one behind it is taken out, to be the one before the next node.
pub fn take_slots(
    closed: &mut Closed<SlotPacket, Global>,
    here: &mut SlotPacket,
    about: &About<'_>,
    base: usize,
    place: usize,
) -> (Option<Packet>, Option<Packet>)
    requires given { IsGiven (given_of about.now) }
    requires flags { let words = closed.old.words in
        AreFlags (given_of about.now) words.items words.filled words.len }
    requires taking { let slots = closed.old.slots in
        HasBefore (given_of about.now) slots.items slots.filled slots.len place here.old }
    requires base { base ≡ (frame (given_of about.now)).batches }
    requires within { place < (numbers (given_of about.now)).count }
    ensures flags { closed.new.words ≡ closed.old.words }
    ensures taking { let slots = closed.new.slots in
        HasBefore (given_of about.now) slots.items slots.filled slots.len (place + 1) here.new }
    ensures left { let g = given_of about.now in
        IsTaken g (slice_index (splits_of (frame g)) place) Left result.0 }
    ensures right { let g = given_of about.now in
        IsTaken g (slice_index (splits_of (frame g)) place) Right result.1 }
{
    let split = spot_of(about, place);
    let word = closed.word(base + place);
    let before = *here;
    let behind = closed.take(place + 1);
    *here = behind;
    let left = slot_packet(
        about,
        split,
        Side::Left,
        is_set(word, bit_of(HANDED, Side::Left)),
        &before,
    );
    let right = slot_packet(
        about,
        split,
        Side::Right,
        is_set(word, bit_of(HANDED, Side::Right)),
        &behind,
    );
    (left, right)
}

/// Takes every packet out of a closed table, into room that was made before, and frees the table.
pub fn read_out(
    mut closed: Closed<SlotPacket, Global>,
    mut left: Vec<Packet>,
    mut right: Vec<Packet>,
    count: usize,
    about: &About<'_>,
) -> (Vec<Packet>, Vec<Packet>)
    requires given { IsGiven (given_of about.now) }
    requires flags { AreFlags (given_of about.now) closed.words.items closed.words.filled closed.words.len }
    requires taking { IsTaking (given_of about.now) closed.slots.items closed.slots.filled closed.slots.len 0 }
    requires count { count ≡ (numbers (given_of about.now)).count }
    requires left_empty { left.items ≡ [] }
    requires right_empty { right.items ≡ [] }
    requires left_room { count ≤ vec_capacity left }
    requires right_room { count ≤ vec_capacity right }
    ensures left { ArePacketsOf about.now.keys.now about.now.boxes.now (splits_of (frame (given_of about.now))) Left
        (length (splits_of (frame (given_of about.now)))) result.0.items }
    ensures right { ArePacketsOf about.now.keys.now about.now.boxes.now (splits_of (frame (given_of about.now))) Right
        (length (splits_of (frame (given_of about.now)))) result.1.items }
{
    let base = batches_of(about);
    let mut here = closed.take(0);
    for i in 0..count {
        let (on_left, on_right) = take_slots(&mut closed, &mut here, about, base, i);
        let split = spot_of(about, i);
        left.push_reserved(taken_or_told(about, split, Side::Left, &on_left));
        right.push_reserved(taken_or_told(about, split, Side::Right, &on_right));
    }
    closed.free();
    (left, right)
}
