//! A folder of class files.
ghost use Rattle.std.specs.Prelude.{◌≡◌, ◌≢◌, ◌⊎◌, ◌≤◌, List, ℕ, map, None, vec_len, IfOk, IsErrOf, IsPermutation, IsTrue};
ghost use Rattle.std.specs.String.{string_bytes};
ghost use Rattle.nr_outside.specs.Calls.{next_count};
ghost use Rattle.nr_outside.specs.Causes.{HasCause, Rose};
ghost use Rattle.nr_outside.specs.Folder.{ToldFile, class_paths, file_at, is_each_once, Reads};

use crate::fault::Fault;
use std::alloc::Global;

mod files;
mod mem;
mod real;
mod walk;

pub use files::are_each_once;
pub use mem::MemFolder;
pub use real::RealFolder;

/// Where class files are listed and read.
///
/// A folder may tell its files, which no call changes, and how many calls were made on it. It counts its faults: reads of a path that
/// its told files lack, and all others; one that tells nothing counts all among the others. A
/// count rises where a call fails, and stands still otherwise; one that is 2^64 - 1 stays there and
/// counts as risen.
pub trait Folder {
    /// It tells its files, and how often it was listed or read.
    ghost Tells: { Type 0 };

    /// Its files.
    ghost files: { Self → List ToldFile };

    /// How often it was listed or read.
    ghost calls: { Self → ℕ };

    /// How often a path was read that the told files lack.
    ghost lacks: { Self → ℕ };

    /// How often it failed otherwise.
    ghost faults: { Self → ℕ };

    /// The paths under `dir` that end in `.class`, at any depth, with `/` between segments, in any
    /// order.
    fn names(&mut self, alloc: Global, dir: &str) -> Result<Vec<String>, Fault>
        ensures files { Tells → files self.new ≡ files self.old }
        ensures names { Tells → IfOk result (λ names. IsPermutation
            (class_paths dir.now (files self.old)) (map string_bytes names.items)) }
        ensures calls { Tells → calls self.new ≡ next_count (calls self.old) }
        ensures cause { HasCause (faults self.old) (faults self.new) result }
        ensures lacks { lacks self.new ≡ lacks self.old };

    /// The first `max` bytes of a file, or all where it is shorter.
    fn read(&mut self, alloc: Global, dir: &str, path: &str, max: usize) -> Result<Vec<u8>, Fault>
        ensures files { Tells → files self.new ≡ files self.old }
        ensures bytes { Tells → Reads (file_at dir.now path.now (files self.old)) max result }
        ensures bound { IfOk result (λ bytes. vec_len bytes ≤ max) }
        ensures calls { Tells → calls self.new ≡ next_count (calls self.old) }
        ensures faults { faults self.old ≤ faults self.new }
        ensures lacks { lacks self.old ≤ lacks self.new }
        ensures cause { IsErrOf result Fault.Failed → Rose (faults self.old) (faults self.new)
            ⊎ (Tells × (file_at dir.now path.now (files self.old) ≡ None)
            × Rose (lacks self.old) (lacks self.new)) }
        ensures still { IsErrOf result Fault.Failed ⊎ ((faults self.new ≡ faults self.old)
            × (lacks self.new ≡ lacks self.old)) }

        // Just one of the counts tells of a path, by whether the told files have it.
        ensures there { (Tells → file_at dir.now path.now (files self.old) ≢ None)
            → HasCause (faults self.old) (faults self.new) result
            × (lacks self.new ≡ lacks self.old) }
        ensures not_there { Tells → file_at dir.now path.now (files self.old) ≡ None
            → HasCause (lacks self.old) (lacks self.new) result
            × (faults self.new ≡ faults self.old) };

    /// A folder and a path stand together once.
    ghost each_once: { (f : Self) → Tells → IsTrue (is_each_once (files f)) };
}
