//! A handoff is made, with one seat for each worker: the first seat has the entries of all numbers, and gives its last
//! entry away until it has one.
ghost use Rattle.std.specs.Prelude.{◌≡◌, ◌<◌, ◌≤◌, ◌^◌, [], length, IfOk, suc, replicate, false, None};
ghost use Rattle.morton_key.specs.Keys.{IsLawful};
ghost use Rattle.arrival_core.specs.Settings.{setting};
ghost use Rattle.arrival_core.specs.Tasks.{IsTask, IsWhole, FitsButFor};
ghost use Rattle.box_handoff.specs.Made.{given_in};
ghost use Rattle.arrival_core.specs.declared.packets.TheConstants.{MOST_WORKERS};
ghost use Rattle.box_handoff.specs.Entries.{IsGiven, setting_of, given_of, frame, numbers, one, unbegun, unbegun_below, first_view};
ghost use Rattle.box_handoff.specs.Starting.{Starts};
ghost use Rattle.box_handoff.specs.Slots.{blank};
ghost use Rattle.box_handoff.specs.Made.{ArePositions};
ghost use Rattle.box_handoff.specs.Gathering.{AreUnbegun};
ghost use Rattle.box_handoff.specs.Seats.{id_of, given_by, setting_by, IsHandoff};

use crate::Tally;
use crate::climbing::batches_of;
use crate::handoffs::Handoff;
use crate::laying::{Laid, Moves, lay_down};
use crate::plays::{HandTable, Parts, TableSeat};
use crate::seats::HandSeat;
use crate::slots::{SlotPacket, blank_slot};
use crate::views::{About, Spots};
use atomic_table::Table;
use fixed_box::Box3;
use morton_key::Key;
use outside::Memory;
use radix_tree::Tree;
use std::alloc::{AllocError, Global};
use std::snapshot::Snapshot;

/// So many words that are 0.
pub fn zeros(alloc: Global, count: usize) -> Result<Vec<u64>, Memory>
    ensures { IfOk result (λ v. v.items ≡ replicate count 0) }
{
    vec![in alloc; 0u64; count].map_err(|_| Memory)
}

/// So many slots in which no packet stands.
fn blank_slots(alloc: Global, count: usize) -> Result<Vec<SlotPacket>, Memory>
    ensures { IfOk result (λ v. v.items ≡ replicate count blank) }
{
    vec![in alloc; blank_slot(); count].map_err(|_| Memory)
}

/// The positions below a count.
fn positions(alloc: Global, count: usize) -> Result<Vec<u32>, AllocError>
    requires { count ≤ 2 ^ 20 }
    ensures { IfOk result (λ v. ArePositions count v.items) }
{
    let mut list = Vec::with_capacity(alloc, count)?;
    for i in 0..count {
        list.push(i as u32)?;
    }
    Ok(list)
}

/// What a handoff over all of these keys is made of.
pub fn whole<'a>(
    alloc: Global,
    keys: &'a [Key],
    boxes: &'a [Box3],
    seats: u32,
) -> Result<About<'a>, Memory>
    requires lawful { IsLawful keys.now }
    requires two { 1 < length keys.now }
    requires count { length boxes.now ≡ length keys.now }
    requires some { 0 < seats }
    requires few { seats ≤ MOST_WORKERS }
    ensures whole { IfOk result (λ a. IsWhole (setting_of (given_of a))) }
    ensures spots { IfOk result (λ a. (given_of a).spots ≡ None) }
    ensures tree { IfOk result (λ a. (given_of a).tree ≡ None) }
    ensures keys { IfOk result (λ a. a.keys.now ≡ keys.now) }
    ensures boxes { IfOk result (λ a. a.boxes.now ≡ boxes.now) }
    ensures seats { IfOk result (λ a. a.seats ≡ seats) }
{
    let live = positions(alloc, keys.len()).map_err(|_| Memory)?;
    Ok(About {
        keys,
        boxes,
        live,
        seats,
        spots: None,
    })
}

/// A table with these words and slots, which are those of the start. The first seat has the entries of all numbers, none
/// begun.
pub fn make<'a>(
    alloc: Global,
    about: About<'a>,
    words: Vec<u64>,
    slots: Vec<SlotPacket>,
) -> Result<(Handoff<'a>, TableSeat), Memory>
    requires given { IsGiven (given_of about) }
    requires start { Starts (frame (given_of about)) (numbers (given_of about)) words.items slots.items }
    ensures made { IfOk result (λ r. IsHandoff r.0) }
    ensures about { IfOk result (λ r. r.0.about ≡ about.entry) }
    ensures seat { IfOk result (λ r. (r.1.table_id ≡ id_of r.0) × (r.1.me ≡ (first_view (given_of about.entry), []))) }
{
    let about_now = Snapshot::of(&about);
    let Ok((table, seat)) = Table::new(alloc, words.as_slice(), slots, &about_now) else {
        return Err(Memory);
    };
    Ok((Handoff { table, about }, seat))
}

/// A table over all leaves: nothing is set, and no packet stands in a slot.
pub fn make_whole<'a>(alloc: Global, about: About<'a>) -> Result<(Handoff<'a>, TableSeat), Memory>
    requires whole { IsWhole (setting_of (given_of about)) }
    requires spots { (given_of about).spots ≡ None }
    requires tree { (given_of about).tree ≡ None }
    ensures made { IfOk result (λ r. IsHandoff r.0) }
    ensures about { IfOk result (λ r. r.0.about ≡ about.entry) }
    ensures seat { IfOk result (λ r. (r.1.table_id ≡ id_of r.0) × (r.1.me ≡ (first_view (given_of about.entry), []))) }
{
    let batches = batches_of(&about);
    let nodes = about.keys.len() - 1;
    let words = zeros(alloc, batches + nodes)?;
    let slots = blank_slots(alloc, nodes + 1)?;
    make(alloc, about, words, slots)
}

/// A table over the live nodes alone. What is not live rests in its place already.
pub fn make_live<'a>(
    alloc: Global,
    tree: &'a Tree,
    boxes: &'a [Box3],
    live: &[u32],
    seats: u32,
) -> Result<(Handoff<'a>, TableSeat), Memory>
    requires task { IsTask (setting tree.now.keys boxes.now live.now seats) }
    requires few { seats ≤ MOST_WORKERS }
    requires rest { FitsButFor tree.now boxes.now live.now }
    ensures made { IfOk result (λ r. IsHandoff r.0) }
    ensures setting { IfOk result (λ r. setting_by r.0 ≡ setting tree.now.keys boxes.now live.now seats) }
    ensures seat { IfOk result (λ r. (r.1.table_id ≡ id_of r.0) × (r.1.me ≡ (first_view (given_by r.0), []))) }
{
    let keys = tree.keys();
    let moves = Moves {
        tree,
        boxes,
        live,
        seats,
    };
    let Laid { spots, words } = lay_down(alloc, &moves)?;
    let slots = blank_slots(alloc, spots.len() + 1)?;
    let Ok(live) = Vec::from_slice(alloc, live) else {
        return Err(Memory);
    };
    let about = About {
        keys,
        boxes,
        live,
        seats,
        spots: Some(Spots {
            splits: spots,
            tree,
        }),
    };
    let (handoff, seat) = make(alloc, about, words, slots)?;
    Ok((handoff, seat))
}

/// Splits off the last of the entries.
fn part(table: &HandTable<'_>, seat: &mut TableSeat, last: u32) -> TableSeat
    requires table { seat.old.table_id ≡ table.now.table_id }
    requires words { 0 < table.now.table_id.words }
    requires view { seat.old.me ≡ (record { given = given_in table.now.key; entries = unbegun_below (suc last) }, []) }
    ensures table { seat.new.table_id ≡ seat.old.table_id }
    ensures view { seat.new.me ≡ (record { given = given_in table.now.key; entries = unbegun_below last }, []) }
    ensures other { (result.table_id ≡ seat.old.table_id)
        × (result.me ≡ (one (given_in table.now.key) (unbegun last), [])) }
{
    table.split_seat::<Parts>(seat)
}

/// A seat that has not begun.
fn unbegun_seat(seat: TableSeat, number: u32) -> HandSeat
    ensures seat { result.seat ≡ seat }
    ensures number { result.number ≡ number }
    ensures unbegun { result.ended ≡ false }
    ensures tally { result.tally ≡ record { fits = 0; steps = 0 } }
{
    HandSeat {
        seat,
        number,
        ended: false,
        tally: Tally { fits: 0, steps: 0 },
    }
}

/// One seat for each number, in order.
pub fn seats_of(
    handoff: &Handoff<'_>,
    alloc: Global,
    first: TableSeat,
) -> Result<Vec<HandSeat>, Memory>
    requires made { IsHandoff handoff.now }
    requires table { first.table_id ≡ id_of handoff.now }
    requires first { first.me ≡ (first_view (given_by handoff.now), []) }
    ensures fresh { IfOk result (λ v. AreUnbegun (given_by handoff.now) (id_of handoff.now) 0 v.items) }
    ensures count { IfOk result (λ v. length v.items ≡ handoff.now.about.seats) }
{
    let mut rest = first;
    let mut seats = Vec::new(alloc);
    let mut number = handoff.about.seats;
    while number > 1 {
        number -= 1;
        let seat = part(&handoff.table.shared, &mut rest, number);
        let Ok(()) = seats.insert(0, unbegun_seat(seat, number)) else {
            return Err(Memory);
        };
    }
    let Ok(()) = seats.insert(0, unbegun_seat(rest, 0)) else {
        return Err(Memory);
    };
    Ok(seats)
}
