// A sink over a writer of the system's. It tells nothing.
ghost use Rattle.std.specs.Prelude.{◌≡◌, [], OnOk};
ghost use Rattle.std.specs.Io.KnownBytes.{Keeps, Appends};
ghost use Rattle.nr_outside.specs.Causes.{HasCause};
ghost use Rattle.nr_outside.specs.StdSink.{writer_of};

use crate::counted::{counted, failed};
use crate::fault::Fault;
use crate::sink::Sink;
use crate::write_whole::write_whole;
use std::io::{ErrorKind, Write};

/// A sink over a writer, as the standard output. It flushes each write.
#[derive(Drop)]
pub struct StdSink<W: Write + Drop> {
    inner: W,
    faults: u64,
}

impl<W: Write + Drop> StdSink<W> {
    /// A sink that writes to `inner`.
    pub fn new(inner: W) -> Self
        ensures writer { writer_of result ≡ inner }
        ensures faults { ⟦<StdSink<W> as Sink>⟧.faults result ≡ 0 }
    {
        StdSink { inner, faults: 0 }
    }
}

// Flushes the writer, again where that is interrupted.
fn flush<W: Write>(writer: &mut W, faults: &mut u64) -> Result<(), Fault>
    ensures bytes { OnOk result (Keeps (W.contents writer.old) (W.contents writer.new)) }
    ensures cause { HasCause faults.old faults.new result }
{
    'tries: for _ in 0..u64::MAX {
        match writer.flush() {
            Ok(()) => return Ok(()),
            Err(error) if error.kind() == ErrorKind::Interrupted => {}
            Err(error) => return Err(counted(error, faults)),
        }
    }
    Err(failed(faults))
}

impl<W: Write + Drop> Sink for StdSink<W> {
    ghost Tells = { ⊥ };

    ghost bytes = { λ _. [] };

    ghost writes = { λ _. 0 };

    ghost faults = { λ s. s.faults };

    fn write(&mut self, piece: &[u8]) -> Result<(), Fault>
        ensures cause { HasCause self.old.faults self.new.faults result }
        ensures written { OnOk result (Appends (W.contents (writer_of self.old))
            (W.contents (writer_of self.new)) piece.now) }
    {
        match write_whole(&mut self.inner, piece, &mut self.faults) {
            Ok(()) => flush(&mut self.inner, &mut self.faults),
            Err(fault) => Err(fault),
        }
    }
}
