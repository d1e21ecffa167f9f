//! How far the whole frames reach.

ghost use Rattle.std.specs.Prelude.{◌≤◌, MatchOption, length, take};
ghost use Rattle.nr_frame.specs.Splits.{SplitsAt, CutsOff};

use crate::fault::FrameFault;
use crate::header::{header_fault, whole_len};
use crate::kind::Side;

/// Where the whole frames end, and how the header there breaks a rule.
pub(crate) fn whole_frames(side: Side, bytes: &[u8]) -> (usize, Option<FrameFault>)
    ensures bound { result.0 ≤ length bytes.now }
    ensures split { MatchOption result.1 (SplitsAt side bytes.now result.0) (λ fault. CutsOff side bytes.now (take result.0 bytes.now) fault) }
{
    let mut at = 0usize;
    'frames: loop {
        let rest = &bytes[at..];
        if let Some(fault) = header_fault(side, rest) {
            return (at, Some(fault));
        }
        match whole_len(rest) {
            Some(len) => at += len,
            None => return (at, None),
        }
    }
}
