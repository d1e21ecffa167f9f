//! What the first five bytes say.

ghost use Rattle.std.specs.Prelude.{◌≡◌, ◌≤◌, MatchOption, length};
ghost use Rattle.nr_frame.specs.Headers.{broken_at, frame_len};

use crate::fault::FrameFault;
use crate::kind::Side;

/// How many bytes a body has at most (the project's own rule).
pub const MAX_BODY: u32 = 4_194_304;

/// How many bytes stand before the body.
pub(crate) const HEADER_LEN: usize = 5;

/// How the header in front breaks a rule. Nothing is said before all of it is there.
pub(crate) fn header_fault(side: Side, bytes: &[u8]) -> Option<FrameFault>
    ensures { result ≡ broken_at side bytes.now }
{
    let [a, b, c, d, code, ..] = bytes else {
        return None;
    };
    let body_len = u32::from_be_bytes([*a, *b, *c, *d]);
    if body_len > MAX_BODY {
        return Some(FrameFault::FrameTooLong(u64::from(body_len)));
    }
    if side.reads(*code) {
        None
    } else {
        Some(FrameFault::FrameKind(*code))
    }
}

/// How many bytes the frame in front has, where it is whole.
pub(crate) fn whole_len(bytes: &[u8]) -> Option<usize>
    ensures len { result ≡ frame_len bytes.now }
    ensures bound { MatchOption result Unit (λ n. (5 ≤ n) × (n ≤ length bytes.now)) }
{
    let [a, b, c, d, _, rest @ ..] = bytes else {
        return None;
    };
    let body_len = u32::from_be_bytes([*a, *b, *c, *d]) as usize;
    if body_len <= rest.len() {
        Some(body_len + HEADER_LEN)
    } else {
        None
    }
}
