//! That the cutting of a stream into pieces makes no difference.

ghost use Rattle.nr_frame.specs.Runs.{CutsAgree};

/// Promises that readers of one side to which the same bytes were fed have given the same frames and
/// hold the same bytes and fault, however the bytes were cut and whenever the frames were taken. It does
/// nothing.
pub fn cuts_agree()
    ensures { CutsAgree }
{}
