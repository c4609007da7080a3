//! How a run ended.

ghost use Rattle.std.specs.Prelude.{◌≡◌};
ghost use Rattle.world_engine.specs.Statuses.{code_of};

/// How a run ended, and so what it has written.
#[derive(Clone, Copy, Debug, PartialEq, Eq)]
pub enum Status {
    /// All lines were answered, and none was refused.
    Done,
    /// The words are not accepted.
    Usage,
    /// The mesh file is too long, or one of its lines is refused.
    MeshRefused,
    /// The mesh or the script could not be read to its end. What was written is a front of the defined output.
    ReadFault,
    /// The output could not be written to its end. What was written is a front of the defined output.
    WriteFault,
    /// Memory ran out. What was written is a front of the defined output.
    Memory,
    /// Some line was refused, or the script is too long.
    LinesRefused,
}

impl Status {
    /// The exit status of the program: 0 to 6, in the order of the variants.
    pub fn code(&self) -> u8
        ensures { result ≡ code_of self.now }
    {
        *self as u8
    }
}
