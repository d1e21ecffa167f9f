// A folder of the system's. It tells nothing.
ghost use Rattle.std.specs.Prelude.{◌≡◌, ◌≤◌, ◌<◌, [], IfOk, vec_len};
ghost use Rattle.std.specs.Io.KnownBytes.{Consumes, IsAtEnd};

use crate::counted::counted;
use crate::fault::Fault;
use crate::folder::Folder;
use crate::folder::walk::walk;
use std::alloc::Global;
use std::io::{ErrorKind, Read};
use std::rt::Files;
use std::{fs, io};

/// A folder of the file system.
///
/// `names` goes down at most 64 folders, DIR itself among them; a folder deeper is a fault, and so
/// is a name that isn't UTF-8. It follows no symbolic link to a folder.
#[derive(Drop)]
pub struct RealFolder<R: Files + AllocGlobal + Clone + Drop> {
    rt: R,
    faults: u64,
}

// The first `max` bytes of a reader, or all where it has fewer.
fn read_up_to<F: Read>(alloc: Global, file: &mut F, max: usize) -> io::Result<Vec<u8>>
    ensures bound { IfOk result (λ bytes. vec_len bytes ≤ max) }
    ensures front { IfOk result
        (λ bytes. Consumes (F.remaining file.old) (F.remaining file.new) bytes.items) }
    ensures whole { IfOk result (λ bytes. vec_len bytes < max → IsAtEnd (F.remaining file.new)) }
{
    let mut bytes = Vec::new(alloc);
    let mut part = [0u8; 4096];
    'parts: for _ in 0..u64::MAX {
        let room = (max - bytes.len()).min(part.len());
        if room == 0 {
            return Ok(bytes);
        }
        match file.read(&mut part[..room]) {
            Ok(0) => return Ok(bytes),
            Ok(count) => bytes.extend_from_slice(&part[..count])?,
            Err(error) if error.kind() == ErrorKind::Interrupted => {}
            Err(error) => return Err(error),
        }
    }
    Err(io::Error::from(ErrorKind::Other))
}

impl<R: Files + AllocGlobal + Clone + Drop> RealFolder<R> {
    /// A folder of the file system that `rt` reaches.
    pub fn new(rt: R) -> Self
        ensures lacks { ⟦<RealFolder<R> as Folder>⟧.lacks result ≡ 0 }
        ensures faults { ⟦<RealFolder<R> as Folder>⟧.faults result ≡ 0 }
    {
        RealFolder { rt, faults: 0 }
    }

    fn read_file(&self, alloc: Global, dir: &str, path: &str, max: usize) -> io::Result<Vec<u8>>
        ensures { IfOk result (λ bytes. vec_len bytes ≤ max) }
    {
        let whole = format!(in alloc; "{dir}/{path}")?;
        let mut file = fs::open(&self.rt, &whole)?;
        read_up_to(alloc, &mut file, max)
    }
}

impl<R: Files + AllocGlobal + Clone + Drop> Folder for RealFolder<R> {
    ghost Tells = { ⊥ };

    ghost files = { λ _. [] };

    ghost calls = { λ _. 0 };

    ghost lacks = { λ _. 0 };

    ghost faults = { λ f. f.faults };

    ghost each_once = { λ f no. absurd no };

    fn names(&mut self, alloc: Global, dir: &str) -> Result<Vec<String>, Fault> {
        match walk(&self.rt, alloc, dir) {
            Ok(names) => Ok(names),
            Err(error) => Err(counted(error, &mut self.faults)),
        }
    }

    fn read(&mut self, alloc: Global, dir: &str, path: &str, max: usize) -> Result<Vec<u8>, Fault> {
        match self.read_file(alloc, dir, path, max) {
            Ok(bytes) => Ok(bytes),
            Err(error) => Err(counted(error, &mut self.faults)),
        }
    }
}
