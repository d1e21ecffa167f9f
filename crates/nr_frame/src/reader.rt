//! A reader of frames.

ghost use Rattle.std.specs.Prelude.{◌≡◌, ◌+◌, ◌≤◌, ◌==◌, ◌++◌, MatchOption, IfOk, IsErrOf, OnErr, OnOk, IsTrue, ◌↔◌, drop, length, take, vec_len, []};
ghost use Rattle.nr_frame.specs.Kinds.{code_of};
ghost use Rattle.nr_frame.specs.Headers.{frame_len, frame_of};
ghost use Rattle.nr_frame.specs.Reading.{start_of, IsFed, IsGiven};

use crate::fault::{FeedError, FrameFault};
use crate::frame::Frame;
use crate::header::{HEADER_LEN, whole_len};
use crate::kind::{FrameKind, Side};
use crate::whole::whole_frames;
use std::alloc::{AllocError, Global};
use std::marker::Model;

/// Reads frames from a stream that comes in any pieces. Contracts see it as its side, the bytes that were
/// fed and not yet given, and its kept fault.
#[derive(Drop)]
pub struct FrameReader {
    side: Side,
    // the bytes before `start` were given
    buffer: Vec<u8>,
    start: usize,
    // how many bytes stand behind the last whole frame
    partial: usize,
    fault: Option<FrameFault>,
}

impl Model for FrameReader {
    ghost use Rattle.std.specs.Prelude.{◌≤◌, drop, length};
    ghost use Rattle.nr_frame.specs.Reading.{Reading, IsHeld};

    ghost Value = { Reading };

    ghost view = { λ r. record { side = r.side; unread = drop r.start r.buffer.items; fault = r.fault } };

    ghost invariant = { λ r. IsHeld r.side r.start r.partial r.buffer.items };
}

/// Counts `len` more bytes of the buffer as given, and answers where the others start. It moves the others
/// to the front only where at least half of the buffer is given, so all moves together take time linear in
/// the bytes.
fn advance(buffer: &mut Vec<u8>, start: usize, len: usize) -> usize
    requires { start + len ≤ vec_len buffer.old }
    ensures bound { result ≤ vec_len buffer.new }
    ensures rest { drop result buffer.new.items ≡ drop (start + len) buffer.old.items }
{
    let given = start + len;
    let left = buffer.len() - given;
    if given < left {
        return given;
    }
    buffer.rotate_left(given);
    buffer.truncate(left);
    0
}

impl FrameReader {
    /// A reader to which nothing was fed. It takes no memory.
    pub fn new(alloc: Global, side: Side) -> Self
        ensures { result ≡ start_of side }
    {
        FrameReader {
            side,
            buffer: Vec::new(alloc),
            start: 0,
            partial: 0,
            fault: None,
        }
    }

    /// Whether no byte is held that was fed and not yet given.
    pub fn is_empty(&self) -> bool
        ensures { IsTrue result ↔ (self.now.unread ≡ []) }
    {
        self.start == self.buffer.len()
    }

    /// Takes the next piece of the stream. It looks only at what stands behind the last whole frame, so all
    /// pieces together take time linear in their bytes.
    ///
    /// # Errors
    /// `Fault` where a header breaks a rule: the frames before it stay and are given, the rest is
    /// dropped, and every later call answers the same and changes nothing. `NoMemory` changes nothing.
    pub fn feed(&mut self, piece: &[u8]) -> Result<(), FeedError>
        ensures memory { IsErrOf result FeedError.NoMemory → self.new ≡ self.old }
        ensures kept { (f : FrameFault) → self.old.fault ≡ Some f → (result ≡ Err (FeedError.Fault f)) × (self.new ≡ self.old) }
        ensures fed { OnOk result (IsFed self.old piece.now self.new × (self.new.fault ≡ None)) }
        ensures cut { (f : FrameFault) → result ≡ Err (FeedError.Fault f) → IsFed self.old piece.now self.new × (self.new.fault ≡ Some f) }
    {
        if let Some(fault) = self.fault {
            return Err(FeedError::Fault(fault));
        }
        let end = self.buffer.len() - self.partial;
        self.buffer.extend_from_slice(piece)?;
        let (len, fault) = whole_frames(self.side, &self.buffer[end..]);
        match fault {
            None => {
                self.partial = self.buffer.len() - end - len;
                Ok(())
            }
            Some(fault) => {
                self.buffer.truncate(end + len);
                self.partial = 0;
                self.fault = Some(fault);
                Err(FeedError::Fault(fault))
            }
        }
    }

    /// The next frame, or `None` while no whole frame is held. The error comes only for want of memory.
    pub fn next(&mut self, alloc: Global) -> Result<Option<Frame>, AllocError>
        ensures err { OnErr result (self.new ≡ self.old) }
        ensures none { IfOk result (λ o. MatchOption o ((frame_len self.old.unread ≡ None) × (self.new ≡ self.old)) (λ _. Unit)) }
        ensures frame { IfOk result (λ o. MatchOption o Unit (λ f. frame_of self.old.unread ≡ Some (record { kind = code_of f.kind; body = f.body.items }))) }
        ensures given { IfOk result (λ o. MatchOption o Unit (λ f. IsGiven self.old (take (5 + vec_len f.body) self.old.unread) self.new)) }
    {
        let held = &self.buffer[self.start..];
        let Some(len) = whole_len(held) else {
            return Ok(None);
        };
        let kind = FrameKind::of_code(held[4]);
        let body = Vec::from_slice(alloc, &held[HEADER_LEN..len])?;
        self.start = advance(&mut self.buffer, self.start, len);
        Ok(Some(Frame { kind, body }))
    }
}
