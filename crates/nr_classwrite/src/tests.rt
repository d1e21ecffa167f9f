//! Whole class files that are written again.

mod files;
mod refusals;
mod shape;

use crate::write_class;
use files::{COUNTER, M};
use nr_classread::read_class;
use std::process::Abort;
use std::test::Fail;

/// The bytes that are written of the class of a file. They are read as the same class.
fn written_again<R: AllocGlobal + Abort>(rt: &R, bytes: &[u8]) -> Result<Vec<u8>, Fail> {
    assert!(rt; bytes.len() < 1000);
    let class = read_class(rt.alloc(), bytes).ok().ok_or("a class")?;
    let written = write_class(rt.alloc(), &class).ok().ok_or("a file")?;
    assert!(rt; written.len() < 1000);
    let again = read_class(rt.alloc(), &written).ok().ok_or("a class")?;
    assert!(rt; again.parts() == class.parts());
    Ok(written)
}

#[test]
fn files_again(rt: HostRuntime) -> Result<(), Fail> {
    // it has no attribute that is skipped
    assert_eq!(rt; written_again(&rt, M)?.as_slice(), M);
    // without LineNumberTable in each of three methods, 12, 24 and 20 bytes, and SourceFile, 8 bytes
    assert_eq!(rt; written_again(&rt, COUNTER)?.len() + 64, COUNTER.len());
    Ok(())
}
