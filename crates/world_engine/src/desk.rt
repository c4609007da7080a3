//! Who answers a run's script: the world, with what the run has to remember between lines.

use outside::{Gate, Memory};
use query_script::{Reply, is_refused, read_line, reply_text};
use std::alloc::Global;
use std::thread::Threads;
use streams::Answerer;
use world_index::World;

/// A world that is asked by a script.
#[derive(Drop)]
pub struct Desk {
    pub world: World,
    /// Grid steps to one unit of the script.
    pub unit: u32,
    /// Whether some line was refused.
    pub refused: bool,
}

impl Desk {
    ghost use Rattle.std.specs.Prelude.{◌≡◌, IfOk, OnOk};
    ghost use Rattle.world_engine.specs.Desks.{desk_text, desk_after};

    /// Whether some line was refused.
    pub fn has_refused(&self) -> bool
        ensures { result ≡ self.now.refused }
    {
        self.refused
    }

    /// Answers the line of that number.
    pub fn answer<R: Threads + Sync, G: Gate>(
        &mut self,
        rt: &R,
        alloc: Global,
        gate: &G,
        number: u32,
        line: &[u8],
    ) -> Result<Vec<u8>, Memory>
        ensures text { IfOk result (λ text. text.items ≡ desk_text self.old number line.now) }
        ensures after { OnOk result (self.new ≡ desk_after self.old line.now) }
    {
        let reply = match read_line(line, self.unit) {
            Ok(ask) => self.world.answer(rt, alloc, gate, &ask)?,
            Err(fault) => Reply::Refused(fault),
        };
        let text = reply_text(alloc, number, &reply)?;
        self.refused = self.refused || is_refused(&reply);
        Ok(text)
    }
}

impl Answerer for Desk {
    ghost use Rattle.world_engine.specs.Desks.{desk_text, desk_after};

    ghost text = { desk_text };

    ghost after = { desk_after };
}
