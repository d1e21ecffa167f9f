//! A frame, and its bytes.

ghost use Rattle.std.specs.Prelude.{◌≡◌, ◌≤◌, length, IfOk};
ghost use Rattle.nr_frame.specs.Kinds.{code_of};
ghost use Rattle.nr_frame.specs.Headers.{IsFrameWith, IsGivenBack};

use crate::header::{HEADER_LEN, MAX_BODY};
use crate::kind::FrameKind;
use std::alloc::{AllocError, Global};

/// A frame that was read.
#[derive(Debug, Drop)]
pub struct Frame {
    pub kind: FrameKind,
    pub body: Vec<u8>,
}

/// The bytes of a frame, which a reader of the side that reads its kind gives back, whatever follows
/// them. The error comes only for want of memory.
pub fn frame_bytes(alloc: Global, kind: FrameKind, body: &[u8]) -> Result<Vec<u8>, AllocError>
    requires { length body.now ≤ MAX_BODY }
    ensures frame { IfOk result (λ bytes. IsFrameWith (code_of kind) body.now bytes.items) }
    ensures back { IfOk result (λ bytes. IsGivenBack (code_of kind) body.now bytes.items) }
{
    let mut bytes = Vec::with_capacity(alloc, HEADER_LEN + body.len())?;
    bytes.extend_from_slice(&(body.len() as u32).to_be_bytes())?;
    bytes.push(kind.code())?;
    bytes.extend_from_slice(body)?;
    Ok(bytes)
}
