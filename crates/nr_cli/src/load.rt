//! Reads the class files of a folder.
ghost use Rattle.std.specs.Prelude.{◌≡◌, ◌⊎◌, ◌≤◌, ◌+◌, ◌++◌, ◌∷◌, [], All, length, min, not, nat_le, true, None, Ok, Err, IfOk, IfErr, OnOk, map};
ghost use Rattle.std.specs.String.{string_bytes};
ghost use Rattle.nr_outside.specs.Calls.{CallsAtMost};
ghost use Rattle.nr_outside.specs.Causes.{HasCause, Rose};
ghost use Rattle.nr_outside.specs.Folder.{class_paths, file_at};
ghost use Rattle.nr_cli.specs.Order.{in_byte_order};
ghost use Rattle.nr_cli.specs.Plan.{fault_end, file_class, with_len, loaded_at, all_loaded, reads, are_listed};
ghost use Rattle.nr_classread.specs.ClassText.{ReadsAs};
ghost use Rattle.nr_prog.specs.BodyText.{HasBodies};
ghost use Rattle.nr_linkrules.specs.Readable.{IsReadable};
ghost use Rattle.nr_cli.specs.Loading.{IsNext, IsRead};

use crate::ending::{End, LoadFault};
use nr_base::Items;
use nr_outside::{Fault, Folder};
use nr_prog::Loaded;
use std::alloc::{AllocError, Global};

// The most bytes of a class file.
const MAX_FILE: usize = 1_048_576;

// The most bytes of all class files of a folder.
const MAX_FOLDER: usize = 67_108_864;

/// The paths of the folder's class files, in byte order.
pub fn sorted_names<F: Folder>(
    alloc: Global,
    folder: &mut F,
    dir: &str,
) -> Result<Vec<String>, Fault>
    ensures files { F.Tells → F.files folder.new ≡ F.files folder.old }
    ensures names { F.Tells → IfOk result (λ names. map string_bytes names.items
        ≡ in_byte_order (class_paths dir.now (F.files folder.old))) }
    ensures once { F.Tells → CallsAtMost 1 (F.calls folder.old) (F.calls folder.new) }
    ensures cause { HasCause (F.faults folder.old) (F.faults folder.new) result }
{
    let mut names = folder.names(alloc, dir)?;
    names.sort()?;
    Ok(names)
}

/// The end of the program where a class file is refused.
pub fn refused(alloc: Global, path: &str, fault: LoadFault) -> End
    ensures { (result ≡ End.Memory) ⊎ (result ≡ End.Class path.now fault) }
{
    match Items::of(alloc, path.as_bytes()) {
        Ok(path) => End::Class(path, fault),
        Err(_) => End::Memory,
    }
}

// The end of the program where a file can't be read as a class, or its code is refused.
fn refused_read(alloc: Global, path: &str, fault: nr_code::LoadFault) -> End
    ensures end { (result ≡ End.Memory) ⊎ (result ≡ fault_end path.now fault) }
    ensures words { result ≡ End.Words → ⊥ }
    ensures folder { result ≡ End.Folder → ⊥ }
{
    match fault {
        nr_code::LoadFault::NoMemory => End::Memory,
        nr_code::LoadFault::Class(fault) => refused(alloc, path, LoadFault::Read(fault)),
        nr_code::LoadFault::Code(method, fault) => {
            refused(alloc, path, LoadFault::Code(method, fault))
        }
    }
}

// A class that was read, as the linker wants it.
fn readable(bytes: &[u8], loaded: Loaded) -> Loaded
    requires reads { ReadsAs bytes.now loaded.«class» }
    requires bodies { HasBodies loaded.«class» loaded.bodies }
    ensures same { result ≡ loaded }
    ensures readable { IsReadable result }
{
    let (_, _) = (bytes, loaded.class.parts());
    loaded
}

// The class in the bytes of a file, whose methods have code that is decoded.
fn class_of_bytes(alloc: Global, path: &str, bytes: &[u8]) -> Result<Loaded, End>
    requires { length bytes.now ≤ 1048577 }
    ensures class { (result ≡ Err End.Memory) ⊎ (result ≡ file_class path.now bytes.now) }
    ensures readable { IfOk result IsReadable }
    ensures words { result ≡ Err End.Words → ⊥ }
    ensures folder { result ≡ Err End.Folder → ⊥ }
{
    if bytes.len() > MAX_FILE {
        return Err(refused(alloc, path, LoadFault::FileTooLong));
    }
    match nr_code::load_class(alloc, bytes) {
        Ok(loaded) => Ok(readable(bytes, loaded)),
        Err(fault) => Err(refused_read(alloc, path, fault)),
    }
}

// The same, and how many bytes there are.
fn load_bytes(alloc: Global, path: &str, bytes: &[u8]) -> Result<(Loaded, usize), End>
    requires { length bytes.now ≤ 1048577 }
    ensures class { (result ≡ Err End.Memory)
        ⊎ (result ≡ with_len (length bytes.now) (file_class path.now bytes.now)) }
    ensures readable { IfOk result (λ x. IsReadable x.0) }
    ensures len { IfOk result (λ x. x.1 ≤ 1048577) }
    ensures words { result ≡ Err End.Words → ⊥ }
    ensures folder { result ≡ Err End.Folder → ⊥ }
{
    match class_of_bytes(alloc, path, bytes) {
        Ok(loaded) => Ok((loaded, bytes.len())),
        Err(end) => Err(end),
    }
}

// The class in the file at a path and how many bytes it has, or the end of the program.
fn load_class<F: Folder>(
    alloc: Global,
    folder: &mut F,
    dir: &str,
    path: &str,
) -> Result<(Loaded, usize), End>
    ensures files { F.Tells → F.files folder.new ≡ F.files folder.old }
    ensures class { F.Tells → (result ≡ Err End.Memory) ⊎ (result ≡ Err End.Folder)
        ⊎ (result ≡ loaded_at path.now (file_at dir.now path.now (F.files folder.old))) }
    ensures readable { IfOk result (λ x. IsReadable x.0) }
    ensures len { IfOk result (λ x. x.1 ≤ 1048577) }
    ensures words { result ≡ Err End.Words → ⊥ }
    ensures once { F.Tells → CallsAtMost 1 (F.calls folder.old) (F.calls folder.new) }
    ensures faults { F.faults folder.old ≤ F.faults folder.new }
    ensures cause { result ≡ Err End.Folder → Rose (F.faults folder.old) (F.faults folder.new)
        ⊎ (F.Tells × (file_at dir.now path.now (F.files folder.old) ≡ None)) }
{
    match folder.read(alloc, dir, path, MAX_FILE + 1) {
        Ok(bytes) => load_bytes(alloc, path, &bytes),
        Err(Fault::Failed) => Err(End::Folder),
        Err(Fault::NoMemory) => Err(End::Memory),
    }
}

/// Class files that were read: their classes in order, where they aren't too long together, and how
/// many bytes all of them have, or one more than the limit where they have more.
#[derive(Drop)]
pub struct ReadClasses {
    pub classes: Items<Loaded>,
    pub len: usize,
}

fn len_with(len: usize, more: usize) -> usize
    requires so_far { len ≤ 67108865 }
    requires one { more ≤ 1048577 }
    ensures { result ≡ min (len + more) 67108865 }
{
    (len + more).min(MAX_FOLDER + 1)
}

/// Whether files of so many bytes are too long together.
pub fn is_folder_too_long(len: usize) -> bool
    ensures { result ≡ not (nat_le len 67108864) }
{
    len > MAX_FOLDER
}

impl ReadClasses {
    // Puts a class file to the others.
    fn add(&mut self, loaded: Loaded, len: usize) -> Result<(), AllocError>
        requires so_far { self.old.len ≤ 67108865 }
        requires one { len ≤ 1048577 }
        ensures classes { OnOk result (self.new.len ≤ 67108864
            → self.new.classes ≡ self.old.classes ++ loaded ∷ []) }
        ensures len { OnOk result (self.new.len ≡ min (self.old.len + len) 67108865) }
    {
        self.len = len_with(self.len, len);
        if !is_folder_too_long(self.len) {
            self.classes.push(loaded)?;
        }
        Ok(())
    }
}

// Reads the class file at a path and puts it to the others.
fn load_next<F: Folder>(
    alloc: Global,
    folder: &mut F,
    dir: &str,
    path: &str,
    read: &mut ReadClasses,
) -> Result<(), End>
    requires { read.old.len ≤ 67108865 }
    ensures files { F.Tells → F.files folder.new ≡ F.files folder.old }
    ensures ok { F.Tells → OnOk result
        (IsNext (loaded_at path.now (file_at dir.now path.now (F.files folder.old)))
        read.old.classes read.old.len read.new.classes read.new.len) }
    ensures err { F.Tells → IfErr result (λ end. (end ≡ End.Memory) ⊎ (end ≡ End.Folder)
        ⊎ (loaded_at path.now (file_at dir.now path.now (F.files folder.old)) ≡ Err end)) }
    ensures len { OnOk result (read.new.len ≤ 67108865) }
    ensures readable { (read.old.len ≤ 67108864 → All IsReadable read.old.classes)
        → OnOk result (read.new.len ≤ 67108864 → All IsReadable read.new.classes) }
    ensures words { result ≡ Err End.Words → ⊥ }
    ensures once { F.Tells → CallsAtMost 1 (F.calls folder.old) (F.calls folder.new) }
    ensures faults { F.faults folder.old ≤ F.faults folder.new }
    ensures cause { result ≡ Err End.Folder → Rose (F.faults folder.old) (F.faults folder.new)
        ⊎ (F.Tells × (file_at dir.now path.now (F.files folder.old) ≡ None)) }
{
    let (loaded, len) = match load_class(alloc, folder, dir, path) {
        Ok(read) => read,
        Err(end) => return Err(end),
    };
    match read.add(loaded, len) {
        Ok(()) => Ok(()),
        Err(_) => Err(End::Memory),
    }
}

/// Reads the class files at these paths, in order. The error is the end of the program, by the
/// first that is refused.
pub fn load_all<F: Folder>(
    alloc: Global,
    folder: &mut F,
    dir: &str,
    paths: &[String],
) -> Result<ReadClasses, End>
    ensures files { F.Tells → F.files folder.new ≡ F.files folder.old }
    ensures ok { F.Tells → IfOk result (λ r. IsRead
        (all_loaded dir.now (F.files folder.old) (map string_bytes paths.now)) r.classes r.len) }
    ensures readable { IfOk result (λ r. r.len ≤ 67108864 → All IsReadable r.classes) }
    ensures err { F.Tells → IfErr result (λ end. (end ≡ End.Memory) ⊎ (end ≡ End.Folder)
        ⊎ (all_loaded dir.now (F.files folder.old) (map string_bytes paths.now) ≡ Err end)) }
    ensures words { result ≡ Err End.Words → ⊥ }
    ensures calls { F.Tells
        → CallsAtMost (reads dir.now (F.files folder.old) (map string_bytes paths.now))
        (F.calls folder.old) (F.calls folder.new) }
    ensures faults { F.faults folder.old ≤ F.faults folder.new }
    ensures cause { (F.Tells
        → are_listed dir.now (F.files folder.old) (map string_bytes paths.now) ≡ true)
        → result ≡ Err End.Folder → Rose (F.faults folder.old) (F.faults folder.new) }
{
    let mut read = ReadClasses {
        classes: Items::new(alloc),
        len: 0,
    };
    for path in paths {
        if let Err(end) = load_next(alloc, folder, dir, path, &mut read) {
            return Err(end);
        }
    }
    Ok(read)
}
