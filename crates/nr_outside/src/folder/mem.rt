// A folder in memory, some of whose calls fail.
ghost use Rattle.std.specs.Prelude.{◌≡◌, IsTrue, map};
ghost use Rattle.nr_outside.specs.Folder.{is_each_once};
ghost use Rattle.nr_outside.specs.Files.{told_of};

use crate::counted::failed;
use crate::fail_plan::FailPlan;
use crate::fault::Fault;
use crate::folder::Folder;
use crate::folder::files::{bytes_of, class_paths};
use std::alloc::Global;

/// A folder that holds files, and tells them. It counts its calls of `names` and `read`.
#[derive(Drop)]
pub struct MemFolder {
    files: Vec<(String, String, Vec<u8>)>,
    plan: FailPlan,
    lacks: u64,
    faults: u64,
    ghost each_once: { IsTrue (is_each_once (map told_of files.items)) },
}

impl MemFolder {
    ghost use Rattle.std.specs.Prelude.{◌≡◌, IsTrue, map};
    ghost use Rattle.nr_outside.specs.Folder.{is_each_once};
    ghost use Rattle.nr_outside.specs.Files.{told_of};
    ghost use Rattle.nr_outside.specs.MemFolder.{mem_folder_files, mem_folder_calls, mem_folder_fails};

    /// A folder of these files, each by its folder, its path there and its bytes. `fails` has the
    /// numbers, from 1, of the calls that are to fail. `are_each_once` tests the condition.
    pub fn new(files: Vec<(String, String, Vec<u8>)>, fails: Vec<u64>) -> Self
        requires { IsTrue (is_each_once (map told_of files.items)) }
        ensures files { mem_folder_files result ≡ map told_of files.items }
        ensures calls { mem_folder_calls result ≡ 0 }
        ensures lacks { ⟦<MemFolder as Folder>⟧.lacks result ≡ 0 }
        ensures faults { ⟦<MemFolder as Folder>⟧.faults result ≡ 0 }
        ensures fails { mem_folder_fails result ≡ fails.items }
    {
        MemFolder {
            files,
            plan: FailPlan::new(fails),
            lacks: 0,
            faults: 0,
        }
    }

    /// How often it was listed or read.
    pub fn calls(&self) -> u64
        ensures { result ≡ mem_folder_calls self.now }
    {
        self.plan.calls()
    }
}

impl Folder for MemFolder {
    ghost use Rattle.std.specs.Prelude.{◌≡◌, ◌≢◌, ◌≤◌, ◌⊎◌, map, None, IfOk, IsErrOf, IsTrue, IsPermutation, vec_len};
    ghost use Rattle.std.specs.String.{string_bytes};
    ghost use Rattle.nr_outside.specs.Causes.{HasCause, Rose};
    ghost use Rattle.nr_outside.specs.FailPlan.{is_planned, IsCounted};
    ghost use Rattle.nr_outside.specs.Folder.{class_paths, file_at, Reads};
    ghost use Rattle.nr_outside.specs.MemFolder.{mem_folder_files};

    ghost Tells = { Unit {0} };

    ghost files = { λ f. map told_of f.files.items };

    ghost calls = { λ f. f.plan.calls };

    ghost lacks = { λ f. f.lacks };

    ghost faults = { λ f. f.faults };

    ghost each_once = { λ f _. f.each_once };

    /// It is `Failed` exactly where the call is to fail.
    fn names(&mut self, alloc: Global, dir: &str) -> Result<Vec<String>, Fault>
        ensures files { mem_folder_files self.new ≡ mem_folder_files self.old }
        ensures names { IfOk result (λ names. IsPermutation
            (class_paths dir.now (mem_folder_files self.old)) (map string_bytes names.items)) }
        ensures cause { HasCause self.old.faults self.new.faults result }
        ensures lacks { self.new.lacks ≡ self.old.lacks }
        ensures planned { IsTrue (is_planned self.old.plan) → IsErrOf result Fault.Failed }
        ensures failed { IsErrOf result Fault.Failed → IsTrue (is_planned self.old.plan) }
        ensures counted { IsCounted self.old.plan self.new.plan }
    {
        if self.plan.is_next_to_fail() {
            return Err(failed(&mut self.faults));
        }
        Ok(class_paths(alloc, &self.files, dir)?)
    }

    /// It is `Failed` just where the call is to fail or there is no such file.
    fn read(&mut self, alloc: Global, dir: &str, path: &str, max: usize) -> Result<Vec<u8>, Fault>
        ensures files { mem_folder_files self.new ≡ mem_folder_files self.old }
        ensures bytes { Reads (file_at dir.now path.now (mem_folder_files self.old)) max result }
        ensures bound { IfOk result (λ bytes. vec_len bytes ≤ max) }
        ensures faults { self.old.faults ≤ self.new.faults }
        ensures lacks { self.old.lacks ≤ self.new.lacks }
        ensures cause { IsErrOf result Fault.Failed → Rose self.old.faults self.new.faults
            ⊎ ((file_at dir.now path.now (mem_folder_files self.old) ≡ None)
            × Rose self.old.lacks self.new.lacks) }
        ensures still { IsErrOf result Fault.Failed
            ⊎ ((self.new.faults ≡ self.old.faults) × (self.new.lacks ≡ self.old.lacks)) }
        ensures planned { IsTrue (is_planned self.old.plan) → IsErrOf result Fault.Failed }
        ensures absent { file_at dir.now path.now (mem_folder_files self.old) ≡ None
            → IsErrOf result Fault.Failed }
        ensures failed { IsErrOf result Fault.Failed → IsTrue (is_planned self.old.plan)
            ⊎ (file_at dir.now path.now (mem_folder_files self.old) ≡ None) }
        ensures counted { IsCounted self.old.plan self.new.plan }

        // A read of a file that isn't there counts among the lacks, whether it was to fail or not;
        // any other fault counts among the faults.
        ensures there { file_at dir.now path.now (mem_folder_files self.old) ≢ None
            → HasCause self.old.faults self.new.faults result
            × (self.new.lacks ≡ self.old.lacks) }
        ensures not_there { file_at dir.now path.now (mem_folder_files self.old) ≡ None
            → HasCause self.old.lacks self.new.lacks result
            × (self.new.faults ≡ self.old.faults) }
    {
        let fails = self.plan.is_next_to_fail();
        let Some(bytes) = bytes_of(&self.files, dir, path) else {
            return Err(failed(&mut self.lacks));
        };
        if fails {
            return Err(failed(&mut self.faults));
        }
        Ok(bytes[..max.min(bytes.len())].to_vec(alloc)?)
    }
}
