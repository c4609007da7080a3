//! A seat as its holder sees it.
ghost use Rattle.std.specs.Prelude.{◌≡◌};

use crate::Tally;
use crate::plays::TableSeat;

/// A worker's token of a handoff. It may be sent to a thread, and climbs there.
///
/// It has no bytes of the table: what it did stands in its view, which only its own steps change.
#[derive(Drop)]
pub struct HandSeat {
    pub(crate) seat: TableSeat,
    pub(crate) number: u32,
    pub(crate) ended: bool,
    pub(crate) tally: Tally,
}

impl HandSeat {
    /// The number of the seat, from 0. It takes no memory.
    pub fn number(&self) -> u32
        ensures { result ≡ self.now.number }
    {
        self.number
    }

    /// Whether the seat has climbed, which it does once. It takes no memory.
    pub fn ended(&self) -> bool
        ensures { result ≡ self.now.ended }
    {
        self.ended
    }

    /// How many nodes the seat fitted and how many steps it took; both 0 until it has climbed. It takes no memory.
    pub fn tally(&self) -> Tally
        ensures { result ≡ self.now.tally }
    {
        self.tally
    }
}
