//! Does what the words say, as far as the folder goes.
ghost use Rattle.std.specs.Prelude.{◌≡◌, ◌⊎◌, ◌≤◌, ◌-◌, All, length, slice_get, true, Some, None, map};
ghost use Rattle.std.specs.String.{string_bytes};
ghost use Rattle.nr_outside.specs.Calls.{CallsAtMost};
ghost use Rattle.nr_outside.specs.Causes.{Rose};
ghost use Rattle.nr_linkrules.specs.declared.fault.LinkFault.TheVariants as links;
ghost use Rattle.nr_linkrules.specs.Readable.{IsReadable};
ghost use Rattle.nr_cli.specs.Words.{told, command_of};
ghost use Rattle.nr_cli.specs.Dues.{Comes};
ghost use Rattle.nr_cli.specs.Plan.{judged, last_end, folder_due, of_paths, of_command, due_of, reads, calls_of, are_listed};

use crate::command::RunCommand;
use crate::ending::{End, LoadFault};
use crate::load::{ReadClasses, is_folder_too_long, load_all, refused, sorted_names};
use crate::main_run::end_of_main;
use crate::program::prepare;
use crate::words::read_words;
use nr_base::Items;
use nr_linkrules::LinkFault;
use nr_outside::{Fault, Folder};
use nr_prog::Loaded;
use std::alloc::Global;

// The end over these classes.
fn end_of_classes(alloc: Global, command: &RunCommand<'_>, classes: Items<Loaded>) -> End
    requires { All IsReadable classes }
    ensures end { Comes (judged (told command.now) classes) result }
    ensures words { result ≡ End.Words → ⊥ }
    ensures folder { result ≡ End.Folder → ⊥ }
{
    match prepare(alloc, classes, &command.main) {
        Ok((program, main)) => end_of_main(alloc, command, &program, main),
        Err(end) => end,
    }
}

// The end where no class file is there, but the command names a class.
fn no_class(command: &RunCommand<'_>) -> End
    ensures { (result ≡ End.Memory) ⊎ (result ≡ End.Link (links.NoClass command.now.main)) }
{
    match command.main.clone() {
        Ok(name) => End::Link(LinkFault::NoClass(name)),
        Err(_) => End::Memory,
    }
}

// The end where the files are too long together.
fn end_of_long(alloc: Global, command: &RunCommand<'_>, paths: &[String]) -> End
    ensures end { (result ≡ End.Memory)
        ⊎ (result ≡ last_end (told command.now)
        (slice_get (map string_bytes paths.now) (length (map string_bytes paths.now) - 1))) }
    ensures words { result ≡ End.Words → ⊥ }
    ensures folder { result ≡ End.Folder → ⊥ }
{
    match paths.last() {
        Some(path) => refused(alloc, path, LoadFault::FolderTooLong),
        None => no_class(command),
    }
}

// The end over class files that were read.
fn end_of_read(alloc: Global, command: &RunCommand<'_>, paths: &[String], read: ReadClasses) -> End
    requires { read.len ≤ 67108864 → All IsReadable read.classes }
    ensures end { Comes (folder_due (told command.now) (map string_bytes paths.now) read.len read.classes) result }
    ensures words { result ≡ End.Words → ⊥ }
    ensures folder { result ≡ End.Folder → ⊥ }
{
    if is_folder_too_long(read.len) {
        return end_of_long(alloc, command, paths);
    }
    end_of_classes(alloc, command, read.classes)
}

// The end over the class files at these paths.
fn end_of_paths<F: Folder>(
    alloc: Global,
    command: &RunCommand<'_>,
    folder: &mut F,
    paths: &[String],
) -> End
    ensures files { F.Tells → F.files folder.new ≡ F.files folder.old }
    ensures end { F.Tells → (result ≡ End.Folder)
        ⊎ Comes (of_paths (told command.now) (F.files folder.old) (map string_bytes paths.now)) result }
    ensures words { result ≡ End.Words → ⊥ }
    ensures calls { F.Tells
        → CallsAtMost (reads command.now.dir.now (F.files folder.old) (map string_bytes paths.now))
        (F.calls folder.old) (F.calls folder.new) }
    ensures faults { F.faults folder.old ≤ F.faults folder.new }
    ensures cause { (F.Tells → are_listed command.now.dir.now (F.files folder.old)
        (map string_bytes paths.now) ≡ true)
        → result ≡ End.Folder → Rose (F.faults folder.old) (F.faults folder.new) }
{
    match load_all(alloc, folder, command.dir, paths) {
        Ok(read) => end_of_read(alloc, command, paths, read),
        Err(end) => end,
    }
}

// The end over the class files of the command's folder.
fn end_of_command<F: Folder>(alloc: Global, command: &RunCommand<'_>, folder: &mut F) -> End
    ensures files { F.Tells → F.files folder.new ≡ F.files folder.old }
    ensures end { F.Tells → (result ≡ End.Folder)
        ⊎ Comes (of_command (Some (told command.now)) (F.files folder.old)) result }
    ensures words { result ≡ End.Words → ⊥ }
    ensures calls { F.Tells → CallsAtMost (calls_of (Some (told command.now)) (F.files folder.old))
        (F.calls folder.old) (F.calls folder.new) }
    ensures cause { result ≡ End.Folder → Rose (F.faults folder.old) (F.faults folder.new) }
{
    match sorted_names(alloc, folder, command.dir) {
        Ok(paths) => end_of_paths(alloc, command, folder, &paths),
        Err(Fault::Failed) => End::Folder,
        Err(Fault::NoMemory) => End::Memory,
    }
}

/// The end of the program that is given these words over this folder.
pub fn plan<F: Folder>(alloc: Global, words: &[&str], folder: &mut F) -> End
    ensures files { F.Tells → F.files folder.new ≡ F.files folder.old }
    ensures end { F.Tells → (result ≡ End.Folder)
        ⊎ Comes (due_of (map (λ w. w.now) words.now) (F.files folder.old)) result }
    ensures calls { F.Tells
        → CallsAtMost (calls_of (command_of (map (λ w. w.now) words.now)) (F.files folder.old))
        (F.calls folder.old) (F.calls folder.new) }
    ensures words { (result ≡ End.Words) → command_of (map (λ w. w.now) words.now) ≡ None }
    ensures no_words { command_of (map (λ w. w.now) words.now) ≡ None → (result ≡ End.Words)
        ⊎ (result ≡ End.Memory) }
    ensures cause { result ≡ End.Folder → Rose (F.faults folder.old) (F.faults folder.new) }
{
    match read_words(alloc, words) {
        Ok(Some(command)) => end_of_command(alloc, &command, folder),
        Ok(None) => End::Words,
        Err(_) => End::Memory,
    }
}
