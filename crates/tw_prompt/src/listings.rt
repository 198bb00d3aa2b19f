//! Directories, as listings whose names complete paths.

ghost use Rattle.std.specs.Prelude.{◌≡◌, IfOk, string_bytes};

use std::alloc::{AllocError, Global};
use std::fs::{self, DirEntry};
use tw_hosts::{DirectoryEntry, Listing};

/// Returns true if a name can be typed as part of a path: it has no space, which would end the path, and no control
/// character.
fn is_typed(name: &str) -> bool {
    !name.contains(|c: char| c == ' ' || c.is_control())
}

/// Returns the name of an entry, with a slash after that of a directory.
fn name_of(rt: HostRuntime, entry: &DirEntry) -> Result<String, AllocError> {
    let mut name = String::from_str(rt.alloc(), entry.file_name())?;
    if fs::metadata(&rt, entry.path()).is_ok_and(|it| it.is_dir()) {
        name.push('/')?;
    }
    Ok(name)
}

/// Returns the names in a directory, sorted. There are none if it cannot be read.
fn names_in(rt: HostRuntime, path: &str) -> Result<Vec<String>, AllocError> {
    let mut names = Vec::new(rt.alloc());
    let Ok(entries) = fs::read_dir(&rt, path) else {
        return Ok(names);
    };
    for entry in entries {
        let Ok(entry) = entry else {
            continue;
        };
        if is_typed(entry.file_name()) {
            names.push(name_of(rt, &entry)?)?;
        }
    }
    names.sort_unstable();
    Ok(names)
}

/// Returns the entry of a name, which ends with a slash if it is a directory's.
fn entry_of(alloc: Global, name: &str) -> Result<DirectoryEntry, AllocError> {
    let (name, is_directory) = match name.strip_suffix('/') {
        Some(name) => (name, true),
        None => (name, false),
    };
    Ok(DirectoryEntry {
        name: String::from_str(alloc, name)?,
        is_directory,
    })
}

/// Reads the directory at `path` as a listing for paths that begin with `directory`, sorted by name, that of a
/// directory with its slash. Names with a space or a control character are left out, and a directory that cannot be
/// read has none.
pub fn read_listing(rt: HostRuntime, path: &str, directory: &str) -> Result<Listing, AllocError>
    ensures { IfOk result (λ listing. string_bytes listing.directory ≡ directory.now) }
{
    let alloc = rt.alloc();
    let mut entries = Vec::new(alloc);
    for name in names_in(rt, path)? {
        entries.push(entry_of(alloc, name.as_str())?)?;
    }
    Ok(Listing {
        directory: String::from_str(alloc, directory)?,
        entries,
    })
}
