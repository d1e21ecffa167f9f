// A walk down the folders of the file system.
ghost use Rattle.std.specs.Prelude.{◌≤◌, All, IsTrue, IfOk, OnOk};
ghost use Rattle.std.specs.String.{string_bytes};
ghost use Rattle.nr_outside.specs.Folder.{is_class_path};

use crate::folder::files::is_class_path;
use std::alloc::Global;
use std::io::ErrorKind;
use std::rt::Files;
use std::{fs, io};

// How many folders deep a walk goes, the one that it starts at among them.
const MAX_DEPTH: u8 = 64;

// A folder that is still to be listed.
#[derive(Drop)]
struct Pending {
    dir: String,
    // what the paths of its files begin with
    front: String,
    depth: u8,
    ghost within: { depth ≤ 64 },
}

// Puts the folder `name` in `outer` on the list.
fn add_folder(
    alloc: Global,
    outer: &Pending,
    name: &str,
    pending: &mut Vec<Pending>,
) -> io::Result<()> {
    if outer.depth >= MAX_DEPTH {
        return Err(io::Error::from(ErrorKind::InvalidInput));
    }
    let (dir, front) = (outer.dir.as_str(), outer.front.as_str());
    pending.push(Pending {
        dir: format!(in alloc; "{dir}/{name}")?,
        front: format!(in alloc; "{front}{name}/")?,
        depth: outer.depth + 1,
    })?;
    Ok(())
}

// Adds the path of the file `name` in `folder`, if it is a class file.
fn add_file(alloc: Global, folder: &Pending, name: &str, paths: &mut Vec<String>) -> io::Result<()>
    requires { All (λ path. IsTrue (is_class_path (string_bytes path))) paths.old.items }
    ensures { OnOk result
        (All (λ path. IsTrue (is_class_path (string_bytes path))) paths.new.items) }
{
    let front = folder.front.as_str();
    let path = format!(in alloc; "{front}{name}")?;
    if !is_class_path(&path) {
        return Ok(());
    }
    paths.push(path)?;
    Ok(())
}

// Adds the class files of a folder to `paths`, and the folders in it to `pending`.
fn list<R: Files + AllocGlobal + Clone + Drop>(
    rt: &R,
    folder: &Pending,
    paths: &mut Vec<String>,
    pending: &mut Vec<Pending>,
) -> io::Result<()>
    requires { All (λ path. IsTrue (is_class_path (string_bytes path))) paths.old.items }
    ensures { OnOk result
        (All (λ path. IsTrue (is_class_path (string_bytes path))) paths.new.items) }
{
    'entries: for entry in fs::read_dir(rt, &folder.dir)? {
        let entry = entry?;
        if entry.file_type()?.is_dir() {
            add_folder(rt.alloc(), folder, entry.file_name(), pending)?;
        } else {
            add_file(rt.alloc(), folder, entry.file_name(), paths)?;
        }
    }
    Ok(())
}

// The paths of the class files under `dir`, at any depth.
pub fn walk<R: Files + AllocGlobal + Clone + Drop>(
    rt: &R,
    alloc: Global,
    dir: &str,
) -> io::Result<Vec<String>>
    ensures { IfOk result
        (λ paths. All (λ path. IsTrue (is_class_path (string_bytes path))) paths.items) }
{
    let mut paths = Vec::new(alloc);
    let mut pending = Vec::new(alloc);
    pending.push(Pending {
        dir: String::from_str(alloc, dir)?,
        front: String::new(alloc),
        depth: 1,
    })?;
    'folders: for _ in 0..u64::MAX {
        match pending.pop() {
            Some(folder) => list(rt, &folder, &mut paths, &mut pending)?,
            None => return Ok(paths),
        }
    }
    Err(io::Error::from(ErrorKind::Other))
}
