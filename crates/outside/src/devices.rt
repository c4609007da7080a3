//! The four traits through which a run meets its surroundings. What a device holds is a ghost member, told or not told,
//! and `faults` is the count that a failure must raise.

ghost use Rattle.std.specs.Prelude.{◌≡◌, ℕ, List, Option, ◌<◌, ◌≤◌, length, take, IfOk, OnErr};
ghost use Rattle.std.specs.Io.{ReadsAtMost};
ghost use Rattle.std.specs.Io.KnownBytes.{ReadConsumes, WriteAppends};
ghost use Rattle.outside.specs.Causes.{HasCause};
ghost use Rattle.outside.specs.Streams.{IsSpent};
ghost use Rattle.outside.specs.Files.{Files, FileIs, FetchGives, FetchHasCause};

use crate::Failed;

/// Bytes that come in pieces.
pub trait Source {
    // The bytes still to come, where the source tells them.
    ghost left: { Self → Option (List ℕ) };
    // A count of failed calls. It never falls, and rises at each.
    ghost faults: { Self → ℕ };

    /// Moves the next bytes into the front of `buf`, and answers how many: at most its length, and 0 exactly where none
    /// is left. A failure takes nothing.
    fn read(&mut self, buf: &mut [u8]) -> Result<usize, Failed>
        requires { 0 < length buf.old }

        ensures bound { ReadsAtMost result buf.new }
        ensures bytes { ReadConsumes (left self.old) (left self.new) result buf.new }
        ensures end { IfOk result (λ n. IsSpent (left self.old) → n ≡ 0) }
        ensures kept { OnErr result (left self.new ≡ left self.old) }

        ensures cause { HasCause (faults self.old) (faults self.new) result };
}

/// Bytes that are taken in pieces.
pub trait Sink {
    // The bytes taken so far, where the sink tells them.
    ghost written: { Self → Option (List ℕ) };
    // A count of failed calls. It never falls, and rises at each.
    ghost faults: { Self → ℕ };

    /// Takes a front of `piece`, and answers its length: at least 1, at most all. A failure takes nothing, and a device
    /// that takes nothing has failed.
    fn write(&mut self, piece: &[u8]) -> Result<usize, Failed>
        requires { 0 < length piece.now }

        ensures some { IfOk result (λ n. 0 < n) }
        ensures bound { IfOk result (λ n. n ≤ length piece.now) }
        ensures bytes { WriteAppends (written self.old) (written self.new) result piece.now }
        ensures kept { OnErr result (written self.new ≡ written self.old) }

        ensures cause { HasCause (faults self.old) (faults self.new) result };
}

/// Files by name.
pub trait Shelf {
    // The files, where the shelf tells them.
    ghost holds: { Self → Option Files };
    // A count of failed calls, but for those where the shelf tells that the name is not held. It never falls.
    ghost faults: { Self → ℕ };

    /// Copies bytes of the named file from place `at` on into the front of `buf`, and answers how many: at most its
    /// length, and 0 exactly where the place is at or past the file's end. A name that is not held always fails.
    fn fetch(&mut self, name: &str, at: u64, buf: &mut [u8]) -> Result<usize, Failed>
        requires { 0 < length buf.old }

        ensures bound { ReadsAtMost result buf.new }
        ensures bytes { FileIs (holds self.old) name.now
            (λ file. IfOk result (λ n. FetchGives file at n (take n buf.new))) }
        ensures same { holds self.new ≡ holds self.old }

        ensures cause { FetchHasCause (holds self.old) name.now (faults self.old) (faults self.new) result };
}

/// Passed by a worker before each batch of work, so that a test can hold it there. It returns, and promises nothing
/// else.
pub trait Gate: Sync {
    /// Lets worker `worker` go on to its turn `turn`, both counted from 0.
    fn pass(&self, worker: u32, turn: u64);
}

/// A gate at which nobody waits.
#[derive(Clone, Copy, Debug, PartialEq, Eq)]
pub struct OpenGate;

impl Gate for OpenGate {
    fn pass(&self, _worker: u32, _turn: u64) {}
}
