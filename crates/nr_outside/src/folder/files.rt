// Looking up files in memory, each by its folder, its path there and its bytes.
ghost use Rattle.std.specs.Prelude.{◌≡◌, ◌↔◌, List, IsTrue, IfOk, MatchOption, None, Some, is_some, map};
ghost use Rattle.std.specs.String.{string_bytes};
ghost use Rattle.nr_outside.specs.Folder.{is_class_path, class_paths, file_at, is_each_once};
ghost use Rattle.nr_outside.specs.Files.{told_of};

use std::alloc::{AllocError, Global};

pub fn is_class_path(path: &str) -> bool
    ensures { result ≡ is_class_path path.now }
{
    path.as_bytes().ends_with(b".class".as_slice())
}

// The paths of the class files of a folder.
pub fn class_paths(
    alloc: Global,
    files: &[(String, String, Vec<u8>)],
    dir: &str,
) -> Result<Vec<String>, AllocError>
    ensures { IfOk result
        (λ names. map string_bytes names.items ≡ class_paths dir.now (map told_of files.now)) }
{
    let mut paths = Vec::new(alloc);
    'files: for file in files {
        if file.0.as_str() == dir && is_class_path(&file.1) {
            paths.push(file.1.clone()?)?;
        }
    }
    Ok(paths)
}

// The bytes of a file.
pub fn bytes_of<'a>(
    files: &'a [(String, String, Vec<u8>)],
    dir: &str,
    path: &str,
) -> Option<&'a [u8]>
    ensures { MatchOption result (file_at dir.now path.now (map told_of files.now) ≡ None)
        (λ bytes. file_at dir.now path.now (map told_of files.now) ≡ Some bytes.now) }
{
    'files: for file in files {
        if file.0.as_str() == dir && file.1.as_str() == path {
            return Some(&file.2);
        }
    }
    None
}

/// Whether each folder and path stand together once among the files, as a `MemFolder` asks.
pub fn are_each_once(files: &[(String, String, Vec<u8>)]) -> bool
    ensures { result ≡ is_each_once (map told_of files.now) }
{
    let mut rest = files;
    'files: while let [file, later @ ..] = rest {
        if bytes_of(later, &file.0, &file.1).is_some() {
            return false;
        }
        rest = later;
    }
    true
}
