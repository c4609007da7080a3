//! The rule, and what each step tells.
ghost use Rattle.box_handoff.specs.Entries.{first_view, given_of, front_of, last_of};
ghost use Rattle.box_handoff.specs.Rule.{Rule};
ghost use Rattle.box_handoff.specs.Cuts.{left_view, right_view, both_views, spent_view};
ghost use Rattle.box_handoff.specs.Plays.{Took, DidOpen, Arrived, Collected, DidLeave};

use crate::slots::SlotPacket;
use crate::views::{About, View};
use atomic_table::{Join, Play, Seat, Shared, Split, TableRule};
use std::snapshot::Snapshot;

pub struct Arrival;

impl<'a> TableRule<SlotPacket, View, Snapshot<About<'a>>> for Arrival {
    ghost holds = { λ k. Rule (given_of k.value) };

    ghost first = { λ k. first_view (given_of k.value) };
}

pub struct Takes;

impl Play<SlotPacket, View> for Takes {
    ghost then = { Took };
}

pub struct Opens;

impl Play<SlotPacket, View> for Opens {
    ghost then = { DidOpen };
}

pub struct Arrives;

impl Play<SlotPacket, View> for Arrives {
    ghost then = { Arrived };
}

pub struct Collects;

impl Play<SlotPacket, View> for Collects {
    ghost then = { Collected };
}

pub struct Leaves;

impl Play<SlotPacket, View> for Leaves {
    ghost then = { DidLeave };
}

pub type HandTable<'a> = Shared<SlotPacket, View, Snapshot<About<'a>>, Arrival>;

pub type TableSeat = Seat<SlotPacket, View>;

/// The last entry goes to a seat of its own.
pub struct Parts;

impl Split<View> for Parts {
    ghost left = { left_view };

    ghost right = { right_view };
}

/// The entries of both go to one seat.
pub struct Gathers;

impl Join<View> for Gathers {
    ghost both = { both_views };

    ghost spent = { spent_view };
}
