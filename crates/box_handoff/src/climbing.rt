//! How one seat climbs: batch by batch, leaf by leaf, and from each leaf up as far as it comes second.
ghost use Rattle.std.specs.Prelude.{true, ◌≡◌, ◌<◌, ◌+◌, ◌^◌, ◌≤◌, ℕ, [], ◌∷◌, ◌++◌, length, Some, None, suc};
ghost use Rattle.box_handoff.specs.Made.{given_in, frame_in, numbers_in};
ghost use Rattle.box_handoff.specs.Entries.{IsGiven, numbers, frame, given_of, one, worker_of};
ghost use Rattle.box_handoff.specs.Plays.{mine, IsSmall};
ghost use Rattle.box_handoff.specs.Climbs.{Climbed, IsCarried, IsTold, Working};
ghost use Rattle.arrival_core.specs.Frames.{other, packet_at};
ghost use Rattle.arrival_core.specs.Events.{resume, join};
ghost use Rattle.arrival_core.specs.Start.{fresh};
ghost use Rattle.arrival_core.specs.declared.packets.Phase.TheVariants.{Looking, Carry, Opened, Second, Collecting, Ended};

use crate::passing::pass_node;
use crate::plays::{HandTable, TableSeat};
use crate::resting::leaf_packet;
use crate::steps::take;
use crate::views::About;
use crate::ways::Ways;
use crate::{Load, Tally};
use arrival_core::{BATCH, Up};
use outside::Gate;

/// How many batches of leaves there are.
pub fn batches_of(about: &About<'_>) -> usize
    requires { length about.now.live.items ≤ 2 ^ 20 }
    ensures value { result ≡ (frame (given_of about.now)).batches }
    ensures small { result ≤ 2 ^ 20 }
{
    (about.live.len() + BATCH - 1) / BATCH
}

/// Carries a load up until the other side of a node has not arrived, or to the root. The answer is the tally then.
pub fn carry_up<W: Ways>(
    table: &HandTable<'_>,
    about: &About<'_>,
    seat: &mut TableSeat,
    base: usize,
    ways: &W,
    load: Load,
    tally: Tally,
) -> Tally
    requires table { seat.old.table_id ≡ table.now.table_id }
    requires over { IsTold about.now table.now.key table.now.table_id base }
    requires one { seat.old.me.0 ≡ one (given_in table.now.key) (mine seat.old.me) }
    requires home { seat.old.me.1 ≡ [] }
    requires phase { (mine seat.old.me).phase ≡ Carry load }
    requires load { IsCarried (frame_in table.now.key) load }
    requires tally { tally ≡ (mine seat.old.me).tally }
    requires ways { W.stands ways.now (given_in table.now.key).keys }
    ensures climbed { Climbed (given_in table.now.key) seat.old seat.new }
    ensures worker { worker_of (mine seat.new.me) ≡ resume (frame_in table.now.key) (mine seat.old.me).next
        (mine seat.old.me).pending result }
{
    let mut load = load;
    let mut tally = tally;
    loop {
        let Some(packet) = pass_node(table, about, seat, base, &load) else {
            tally.steps += 2;
            return tally;
        };
        tally.steps += 4;
        tally.fits += 1;
        match ways.parent(packet.first, packet.last) {
            None => return tally,
            Some(Up { split, side }) => {
                load = Load {
                    split,
                    side,
                    packet,
                };
            }
        }
    }
}

/// The load of the leaf at a position.
fn leaf_load<W: Ways>(about: &About<'_>, ways: &W, position: u32) -> Load
    requires given { IsGiven (given_of about.now) }
    requires within { position < suc (frame (given_of about.now)).nodes }
    requires live { (frame (given_of about.now)).live_leaf position ≡ true }
    requires ways { W.stands ways.now about.now.keys.now }
    ensures value { let f = frame (given_of about.now) in
        result ≡ record {
          split = (f.above_leaf position).split;
          side =
              (f.above_leaf position).side;
          packet = f.leaf_packet position;
        } }
    ensures load { IsCarried (frame (given_of about.now)) result }
{
    let packet = leaf_packet(about, position);
    let Some(Up { split, side }) = ways.parent(position, position) else {
        unreachable!()
    };
    Load {
        split,
        side,
        packet,
    }
}

/// Carries the leaves of a batch up, one by one.
fn carry_batch<W: Ways>(
    table: &HandTable<'_>,
    about: &About<'_>,
    seat: &mut TableSeat,
    base: usize,
    ways: &W,
    batch: usize,
    tally: Tally,
) -> Tally
    requires table { seat.old.table_id ≡ table.now.table_id }
    requires over { IsTold about.now table.now.key table.now.table_id base }
    requires within { batch < (frame_in table.now.key).batches }
    requires one { seat.old.me.0 ≡ one (given_in table.now.key) (mine seat.old.me) }
    requires home { seat.old.me.1 ≡ [] }
    requires worker { worker_of (mine seat.old.me) ≡ resume (frame_in table.now.key) (batch + 1)
        ((frame_in table.now.key).batch batch) tally }
    requires ways { W.stands ways.now (given_in table.now.key).keys }
    ensures { Working (given_in table.now.key) seat.old seat.new (batch + 1) [] result }
{
    let mut tally = tally;
    let begin = BATCH * batch;
    let end = about.live.len().min(begin + BATCH);
    for i in begin..end {
        let load = leaf_load(about, ways, about.live[i]);
        tally = carry_up(table, about, seat, base, ways, load, tally);
    }
    tally
}

/// Takes batches and carries their leaves up, until no batch is left.
pub fn climb_with<W: Ways, G: Gate>(
    table: &HandTable<'_>,
    about: &About<'_>,
    seat: &mut TableSeat,
    base: usize,
    number: u32,
    ways: &W,
    gate: &G,
) -> Tally
    requires table { seat.old.table_id ≡ table.now.table_id }
    requires over { IsTold about.now table.now.key table.now.table_id base }
    requires one { seat.old.me.0 ≡ one (given_in table.now.key) (mine seat.old.me) }
    requires home { seat.old.me.1 ≡ [] }
    requires unbegun { worker_of (mine seat.old.me) ≡ fresh }
    requires ways { W.stands ways.now (given_in table.now.key).keys }
    ensures climbed { Climbed (given_in table.now.key) seat.old seat.new }
    ensures ended { (mine seat.new.me).phase ≡ Ended }
    ensures tally { result ≡ (mine seat.new.me).tally }
    ensures small { IsSmall (mine seat.new.me).tally }
{
    let mut tally = Tally { fits: 0, steps: 0 };
    for batch in 0..base {
        gate.pass(number, batch as u64);
        let was_claimed = take(table, seat, batch);
        tally.steps += 1;
        if was_claimed {
            continue;
        }
        tally = carry_batch(table, about, seat, base, ways, batch, tally);
    }
    tally
}
