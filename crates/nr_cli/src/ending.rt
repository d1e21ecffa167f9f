//! How the program ends.
use nr_base::Items;
use nr_classread::ClassFault;
use nr_code::CodeFault;
use nr_linkrules::LinkFault;
use nr_run::Limit;

/// Why a class file is refused.
#[derive(Clone, Copy, Debug, PartialEq, Eq)]
pub enum LoadFault {
    /// The file isn't a class file.
    Read(ClassFault),
    /// The code of the method at this place, from 0, is refused.
    Code(u16, CodeFault),
    /// The file has more than 1,048,576 bytes.
    FileTooLong,
    /// It is the last of class files that have more than 67,108,864 bytes together.
    FolderTooLong,
}

/// How a run of `main` stops.
#[derive(Debug, Drop)]
pub enum Stop {
    /// `main` returned this value.
    Returned(i32),
    /// `main` ended by a throw of an object of the class of this name.
    Thrown(Items<u8>),
    /// The run made so many steps without an end.
    Budget(u32),
    /// The run would pass this limit of the machine.
    Limit(Limit),
    /// Memory ran out on the way.
    Memory,
}

/// How the program ends.
#[derive(Debug, Drop)]
pub enum End {
    /// The words fit no row of the word table.
    Words,
    /// A call on the folder failed.
    Folder,
    /// The class file at this path is refused.
    Class(Items<u8>, LoadFault),
    /// The classes don't link, or the class that is to run isn't there or can't be run.
    Link(LinkFault),
    /// The program isn't well typed; why, as it is spelled.
    Verify(Items<u8>),
    /// `main` was run, printed so, and stopped so.
    Run(Items<u8>, Stop),
    /// Memory ran out.
    Memory,
}
