//! The file of a history on the disk: opening it, reading its end, and writing it anew.

use std::alloc::Global;
use std::fs::{self, File, Metadata, OpenOptions, TryLockError};
use std::io::{self, Error, ErrorKind, Read, Seek, SeekFrom, Write};
use std::os::unix::fs::{MetadataExt, OpenOptionsExt};
use std::thread;
use std::time::Duration;

/// How many bytes are read of a file, for each line that is kept.
const BYTES_A_LINE: u64 = 1024;

/// How many times as long as what is kept of it a file is that is written anew.
const LONG: usize = 4;

/// The mode of a file that is made: only its owner reads and writes it.
const PRIVATE: u32 = 0o600;

/// What the name of the new file ends in while a file is written anew.
const BESIDE: &str = ".being-written";

/// How often a file is opened that another session writes anew, and the milliseconds between two times.
const TRIES: usize = 200;

const PAUSE_MILLIS: u64 = 10;

/// A file of a history that is open.
#[derive(Drop)]
pub struct OpenFile {
    /// The end of it that was read.
    pub end: Vec<u8>,
    /// True if there are bytes before this end.
    pub is_part: bool,
    /// True if it is long, and no other session has it open.
    pub is_to_shrink: bool,
    /// None if it can't be written. Else no other session writes it anew as long as it is open.
    pub file: Option<File>,
    /// How many bytes it has.
    pub len: u64,
}

/// Refuses what is no regular file, as a folder, a device or a FIFO.
fn regular(found: Metadata) -> io::Result<Metadata> {
    if found.is_file() {
        Ok(found)
    } else {
        Err(Error::from(ErrorKind::InvalidInput))
    }
}

/// Opens a regular file to be read and, with true, written at its end. It is made if there is none.
fn open_regular(rt: HostRuntime, path: &str) -> io::Result<(File, bool)> {
    // Asked before opening, which a FIFO delays and a device may notice.
    match fs::metadata(&rt, path) {
        Ok(found) => {
            let _regular = regular(found)?;
        }
        Err(fault) if fault.kind() == ErrorKind::NotFound => {}
        Err(fault) => return Err(fault),
    }
    let mut options = OpenOptions::new();
    options.read(true).append(true).create(true).mode(PRIVATE);
    if let Ok(file) = options.open(&rt, path) {
        return Ok((file, true));
    }
    Ok((File::open(&rt, path)?, false))
}

/// Returns true if a path leads to this open file, and not to another one by now.
fn is_at(rt: HostRuntime, path: &str, file: &File) -> io::Result<bool> {
    let ours = file.metadata()?;
    Ok(fs::metadata(&rt, path).is_ok_and(|found| (found.dev(), found.ino())
        == (ours.dev(), ours.ino())))
}

/// Takes the lock that keeps others from writing a file anew, and returns true if it could be taken. If files can't be
/// locked none is written anew, and this is true.
fn hold(rt: HostRuntime, path: &str, file: &File) -> io::Result<bool> {
    match file.try_lock_shared() {
        Err(TryLockError::WouldBlock) => Ok(false),
        _ => is_at(rt, path, file),
    }
}

/// Reads the last `most` bytes of a file, and returns where they begin.
fn read_end(alloc: Global, mut file: &File, most: u64) -> io::Result<(Vec<u8>, u64)> {
    let start = regular(file.metadata()?)?.len().saturating_sub(most);
    let mut end = Vec::new(alloc);
    let _start = file.seek(SeekFrom::Start(start))?;
    // Another session may write meanwhile.
    let _count = file.take(most.saturating_mul(2)).read_to_end(&mut end)?;
    Ok((end, start))
}

/// Returns true if a file is several times as long as what is kept of it.
fn is_long(end: &[u8], start: u64, most: u64, limit: usize) -> bool {
    let lines = end.iter().filter(|byte| **byte == b'\n').count();
    start / LONG as u64 >= most || lines / LONG >= limit
}

/// Takes a file that has `len` bytes for this session only. Returns false if others have it open, and none if it has
/// changed.
fn take_alone(rt: HostRuntime, path: &str, file: &File, len: u64) -> io::Result<Option<bool>> {
    if file.try_lock().is_ok() {
        let is_same = file.metadata()?.len() == len && is_at(rt, path, file)?;
        return Ok(is_same.then_some(true));
    }
    // If one lock is refused the other one is gone.
    Ok(hold(rt, path, file)?.then_some(false))
}

/// Opens a file. Returns none if another session writes it anew just now.
fn open_once(
    rt: HostRuntime,
    path: &str,
    limit: usize,
    may_shrink: bool,
) -> io::Result<Option<OpenFile>> {
    let (file, is_writable) = open_regular(rt, path)?;
    if is_writable && !hold(rt, path, &file)? {
        return Ok(None);
    }
    let most = (limit as u64).saturating_mul(BYTES_A_LINE);
    let (end, start) = read_end(rt.alloc(), &file, most)?;
    let len = start.saturating_add(end.len() as u64);
    let mut is_to_shrink = false;
    if may_shrink && is_writable && is_long(&end, start, most, limit) {
        match take_alone(rt, path, &file, len)? {
            Some(is_alone) => is_to_shrink = is_alone,
            None => return Ok(None),
        }
    }
    Ok(Some(OpenFile {
        end,
        is_part: start > 0,
        is_to_shrink,
        file: is_writable.then_some(file),
        len,
    }))
}

/// Opens the file of a history that keeps `limit` lines, which is made if there is none. With `may_shrink` it is to be
/// written anew if it is long. It can't be written if another program keeps it locked.
pub fn open(rt: HostRuntime, path: &str, limit: usize, may_shrink: bool) -> io::Result<OpenFile> {
    for _ in 0..TRIES {
        if let Some(opened) = open_once(rt, path, limit, may_shrink)? {
            return Ok(opened);
        }
        thread::sleep(&rt, Duration::from_millis(PAUSE_MILLIS));
    }
    let (file, _) = open_regular(rt, path)?;
    let most = (limit as u64).saturating_mul(BYTES_A_LINE);
    let (end, start) = read_end(rt.alloc(), &file, most)?;
    let len = start.saturating_add(end.len() as u64);
    Ok(OpenFile {
        end,
        is_part: start > 0,
        is_to_shrink: false,
        file: None,
        len,
    })
}

/// Fills a new file that is to take the place of an old one of `len` bytes, with its owner and mode.
fn fill(mut new: &File, old: &File, len: u64, bytes: &[u8]) -> io::Result<()> {
    let (made, found) = (new.metadata()?, old.metadata()?);
    if (made.uid(), made.gid()) != (found.uid(), found.gid()) || found.nlink() != 1 {
        return Err(Error::from(ErrorKind::Unsupported));
    }
    new.set_permissions(found.permissions())?;
    new.try_lock_shared()?;
    new.write_all(bytes)?;
    new.sync_all()?;
    // A program that takes no lock may have written meanwhile.
    if old.metadata()?.len() == len {
        Ok(())
    } else {
        Err(Error::from(ErrorKind::ResourceBusy))
    }
}

/// Writes a new file beside an old one of `len` bytes, and puts it in its place. A link to the old one leads to the new one.
fn replace(rt: HostRuntime, path: &str, old: &File, len: u64, bytes: &[u8]) -> io::Result<File> {
    let path = fs::canonicalize(&rt, path)?;
    let mut beside = String::from_str(rt.alloc(), path.as_str())?;
    beside.push_str(BESIDE)?;
    // One that a killed session has left.
    let _left = fs::remove_file(&rt, beside.as_str());
    let mut options = OpenOptions::new();
    options.append(true).create_new(true).mode(PRIVATE);
    let new = options.open(&rt, beside.as_str())?;
    let replaced = fill(&new, old, len, bytes).and_then(|()| fs::rename(
        &rt,
        beside.as_str(),
        path.as_str(),
    ));
    match replaced {
        Ok(()) => Ok(new),
        Err(fault) => {
            let _left = fs::remove_file(&rt, beside.as_str());
            Err(fault)
        }
    }
}

/// Writes a file anew that no other session has open. A kill at any moment leaves the old file or the new one. Returns
/// the one to be written from now on, and whether it is the new one; the old one goes on if there can be no new one.
pub fn write_anew(
    rt: HostRuntime,
    path: &str,
    old: File,
    len: u64,
    bytes: &[u8],
) -> (Option<File>, bool) {
    if let Ok(new) = replace(rt, path, &old, len, bytes) {
        return (Some(new), true);
    }
    let is_held = hold(rt, path, &old).unwrap_or(false);
    (is_held.then_some(old), false)
}
