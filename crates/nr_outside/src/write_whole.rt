// Writing a whole piece to a writer of the system's.
ghost use Rattle.std.specs.Prelude.{OnOk};
ghost use Rattle.std.specs.Io.KnownBytes.{Appends};
ghost use Rattle.nr_outside.specs.Causes.{HasCause};

use crate::counted::{counted, failed};
use crate::fault::Fault;
use std::io::{ErrorKind, Write};

// Writes the whole piece. A write that takes nothing of it is a fault.
pub fn write_whole<W: Write>(writer: &mut W, piece: &[u8], faults: &mut u64) -> Result<(), Fault>
    ensures bytes { OnOk result
        (Appends (W.contents writer.old) (W.contents writer.new) piece.now) }
    ensures cause { HasCause faults.old faults.new result }
{
    let mut rest = piece;
    'pieces: for _ in 0..u64::MAX {
        if rest.is_empty() {
            return Ok(());
        }
        match writer.write(rest) {
            Ok(0) => return Err(failed(faults)),
            Ok(count) => rest = &rest[count..],
            Err(error) if error.kind() == ErrorKind::Interrupted => {}
            Err(error) => return Err(counted(error, faults)),
        }
    }
    Err(failed(faults))
}
