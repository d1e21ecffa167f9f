//! Where bytes are written.
ghost use Rattle.std.specs.Prelude.{◌≡◌, ◌++◌, List, ℕ, OnOk};
ghost use Rattle.nr_outside.specs.Calls.{next_count};
ghost use Rattle.nr_outside.specs.Causes.{HasCause};
ghost use Rattle.nr_outside.specs.Bytes.{AddsPart};

use crate::fault::Fault;

mod mem;
mod standard;

pub use mem::MemSink;
pub use standard::StdSink;

/// Where text is written. A sink may tell the bytes that it holds and how often it was written to, and it
/// counts its faults.
pub trait Sink {
    /// It tells what it holds, and how often it was written to.
    ghost Tells: { Type 0 };

    /// What it holds.
    ghost bytes: { Self → List ℕ };

    /// How often it was written to.
    ghost writes: { Self → ℕ };

    /// How often it has failed.
    ghost faults: { Self → ℕ };

    /// Adds the piece, or where it is refused some first bytes of it.
    fn write(&mut self, piece: &[u8]) -> Result<(), Fault>
        ensures ok { Tells → OnOk result (bytes self.new ≡ bytes self.old ++ piece.now) }
        ensures part { Tells → AddsPart (bytes self.old) (bytes self.new) piece.now }
        ensures writes { Tells → writes self.new ≡ next_count (writes self.old) }
        ensures cause { HasCause (faults self.old) (faults self.new) result };
}
