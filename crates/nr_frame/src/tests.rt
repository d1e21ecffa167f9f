//! Headers with their answers, and frames cut in every place.

ghost use Rattle.std.specs.Prelude.{◌≡◌, IfOk, length};

use crate::{FeedError, FrameFault, FrameKind, FrameReader, MAX_BODY, Side, frame_bytes};
use std::alloc::{AllocError, Global};
use std::process::Abort;
use std::test::Fail;

#[test]
fn headers(rt: HostRuntime) -> Result<(), Fail> {
    let too_long = |length| Err(FeedError::Fault(FrameFault::FrameTooLong(length)));
    let kind = |code| Err(FeedError::Fault(FrameFault::FrameKind(code)));
    let table: [(Side, &[u8], Result<(), FeedError>); 13] = [
        (Side::Server, b"\x00\x40\x00\x01\x02", too_long(4194305)),
        // a length with its bytes all apart, and one with a kind that isn't read either
        (Side::Server, b"\x81\x42\x23\x14\x02", too_long(0x8142_2314)),
        (Side::Client, b"\xFF\xFF\xFF\xFF\x02", too_long(4294967295)),
        // less than a header
        (Side::Server, b"\x00\x40\x00\x01", Ok(())),
        (Side::Server, b"\x00\x40\x00\x00\x02", Ok(())),
        (Side::Server, b"\x00\x00\x00\x00\x09", kind(9)),
        (Side::Server, b"\x00\x00\x00\x00\x00", kind(0)),
        (Side::Server, b"\x00\x00\x00\x00\x04", kind(4)),
        (Side::Server, b"\x00\x00\x00\x00\x01", Ok(())),
        (Side::Server, b"\x00\x00\x00\x00\x03", Ok(())),
        (Side::Client, b"\x00\x00\x00\x00\x02", kind(2)),
        (Side::Client, b"\x00\x00\x00\x00\x03", kind(3)),
        (Side::Client, b"\x00\x00\x00\x00\x04", Ok(())),
    ];
    for (side, bytes, want) in table {
        let mut reader = FrameReader::new(rt.alloc(), side);
        assert!(rt; reader.is_empty());
        assert_eq!(rt; reader.feed(bytes), want, "{bytes:?}");
        if want.is_err() {
            // the fault is kept, and nothing behind it is taken
            assert_eq!(rt; reader.feed(b"\x00\x00\x00\x00\x01"), want, "{bytes:?}");
            assert!(rt; reader.is_empty(), "{bytes:?}");
            assert!(rt; reader.next(rt.alloc())?.is_none(), "{bytes:?}");
        }
    }
    Ok(())
}

const KINDS: [FrameKind; 3] = [FrameKind::Hello, FrameKind::Call, FrameKind::Go];

/// The bytes of 300 frames, of all kinds in turn, with bodies of 0 to 6 bytes.
fn stream_of_300(alloc: Global) -> Result<Vec<u8>, AllocError> {
    let mut bytes = Vec::new(alloc);
    for number in 0..300u16 {
        let len = u8::try_from(number % 7).unwrap_or(0);
        let kind = u8::try_from(number % 3).unwrap_or(0) % 3 + 1;
        bytes.extend_from_slice(&[0, 0, 0, len, kind])?;
        for _ in 0..len {
            bytes.push(u8::try_from(number % 251).unwrap_or(0))?;
        }
    }
    Ok(bytes)
}

/// Takes what frames there are, which are those from the number on. Answers the number of the next one.
fn take_frames<R: AllocGlobal + Abort>(
    rt: &R,
    reader: &mut FrameReader,
    first: usize,
) -> Result<usize, Fail> {
    for number in first..=300 {
        let Some(frame) = reader.next(rt.alloc())? else {
            return Ok(number);
        };
        assert_eq!(rt; frame.kind, KINDS[number % 3], "{number}");
        assert_eq!(rt; frame.body.len(), number % 7, "{number}");
        let byte = u8::try_from(number % 251).unwrap_or(0);
        assert!(rt; frame.body.iter().all(|b| *b == byte), "{number}");
    }
    Err("too many frames")?
}

/// Feeds the pieces and takes the frames, after each piece or at the end.
fn gives_300<R: AllocGlobal + Abort>(rt: &R, pieces: &[&[u8]], is_each: bool) -> Result<(), Fail> {
    let mut reader = FrameReader::new(rt.alloc(), Side::Server);
    let mut taken = 0;
    for piece in pieces {
        assert_eq!(rt; reader.feed(piece), Ok(()));
        if is_each {
            taken = take_frames(rt, &mut reader, taken)?;
        }
    }
    assert_eq!(rt; take_frames(rt, &mut reader, taken)?, 300);
    assert!(rt; reader.is_empty());
    Ok(())
}

#[test]
fn cut_anywhere(rt: HostRuntime) -> Result<(), Fail> {
    let bytes = stream_of_300(rt.alloc())?;
    for at in 0..=bytes.len() {
        let (front, back) = bytes.split_at(at);
        gives_300(&rt, &[front, back], true)?;
        gives_300(&rt, &[front, back], false)?;
    }
    let mut single = Vec::new(rt.alloc());
    for byte in bytes.chunks(1) {
        single.push(byte)?;
    }
    gives_300(&rt, &single, true)?;
    gives_300(&rt, &single, false)
}

/// Takes all frames, which are empty ones of the kind Go. Answers how many there were.
fn count_empty<R: AllocGlobal + Abort>(rt: &R, reader: &mut FrameReader) -> Result<u32, Fail> {
    for count in 0..u32::MAX {
        let Some(frame) = reader.next(rt.alloc())? else {
            return Ok(count);
        };
        assert_eq!(rt; frame.kind, FrameKind::Go);
        assert!(rt; frame.body.is_empty());
    }
    Err("too many frames")?
}

// 4 MiB of frames of five bytes, fed in pieces of so many bytes before the first is taken. Time that isn't linear in
// the bytes would not end here.
#[test]
fn many_small(rt: HostRuntime) -> Result<(), Fail> {
    let mut bytes = Vec::new(rt.alloc());
    for _ in 0..838_861u32 {
        bytes.extend_from_slice(b"\x00\x00\x00\x00\x03")?;
    }
    for size in [4_194_305, 4096, 1] {
        let mut reader = FrameReader::new(rt.alloc(), Side::Server);
        for piece in bytes.chunks(size) {
            assert_eq!(rt; reader.feed(piece), Ok(()));
        }
        assert_eq!(rt; count_empty(&rt, &mut reader)?, 838_861, "{size}");
        assert!(rt; reader.is_empty());
    }
    Ok(())
}

/// As many sevens.
fn sevens(alloc: Global, count: usize) -> Result<Vec<u8>, AllocError>
    ensures { IfOk result (λ v. length v.items ≡ count) }
{
    Ok(vec![in alloc; 7; count]?)
}

// A side, a kind and how many bytes a body has; then the frame's header and how many bytes it has. The first frame is
// as long as a frame may be.
#[test]
fn written(rt: HostRuntime) -> Result<(), Fail> {
    let table: [(Side, FrameKind, usize, &[u8], usize); 3] = [
        (
            Side::Client,
            FrameKind::Reply,
            4_194_304,
            b"\x00\x40\x00\x00\x04",
            4_194_309,
        ),
        (
            Side::Server,
            FrameKind::Call,
            57,
            b"\x00\x00\x00\x39\x02",
            62,
        ),
        (Side::Server, FrameKind::Go, 0, b"\x00\x00\x00\x00\x03", 5),
    ];
    for (side, kind, count, header, len) in table {
        let body = sevens(rt.alloc(), count)?;
        assert!(rt; body.len() <= MAX_BODY as usize);
        let bytes = frame_bytes(rt.alloc(), kind, &body)?;
        assert!(rt; bytes.starts_with(header));
        assert_eq!(rt; bytes.len(), len);
        let mut reader = FrameReader::new(rt.alloc(), side);
        assert_eq!(rt; reader.feed(&bytes), Ok(()));
        assert!(rt; !reader.is_empty());
        match reader.next(rt.alloc())? {
            Some(frame) => {
                assert_eq!(rt; frame.kind, kind);
                assert_eq!(rt; frame.body.as_slice(), body.as_slice());
            }
            None => assert!(rt; false, "no frame"),
        }
        assert!(rt; reader.is_empty());
    }
    Ok(())
}
