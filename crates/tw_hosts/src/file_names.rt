//! File names that complete what is begun, by listings of directories.

ghost use Rattle.std.specs.Prelude.{◌≡◌, IfOk, IsCharBoundary, map, string_bytes};
ghost use Rattle.tw_host.specs.CandidateView.{candidate_view};
ghost use Rattle.tw_line.specs.Cut.{cut_at};
ghost use Rattle.tw_hosts.specs.FileNames.{entries_in, entry_text, file_candidates, names_from};

use crate::words::{end_row, last_word, split_begun};
use std::alloc::{AllocError, Global};
use tw_host::CompletionCandidate;

/// A name in a directory.
#[derive(Debug, Drop)]
pub struct DirectoryEntry {
    /// The name alone.
    pub name: String,
    /// Whether it is that of a directory.
    pub is_directory: bool,
}

/// What a directory has, as its owner has read it.
#[derive(Debug, Drop)]
pub struct Listing {
    /// The directory, as it stands before a name in a path: with the slash after it, and empty for the one that paths
    /// begin from.
    pub directory: String,
    /// Its entries, in the order in which they are offered.
    pub entries: Vec<DirectoryEntry>,
}

/// Returns the entries of the first listing of a directory. There are none without a listing.
fn entries_in<'listings>(
    listings: &'listings [Listing],
    directory: &str,
) -> &'listings [DirectoryEntry]
    ensures { result.now ≡ entries_in listings.now directory.now }
{
    for listing in listings {
        if listing.directory.as_str() == directory {
            return listing.entries.as_slice();
        }
    }
    &[]
}

/// Returns the name of an entry, with a slash after that of a directory.
fn entry_text(alloc: Global, entry: &DirectoryEntry) -> Result<String, AllocError>
    ensures { IfOk result (λ text. string_bytes text ≡ entry_text entry.now) }
{
    let mut text = String::from_str(alloc, entry.name.as_str())?;
    if entry.is_directory {
        text.push_str("/")?;
    }
    Ok(text)
}

/// Returns the entries whose names begin with `text`, as candidates for the bytes that it has before the cursor.
#[tactic(auto, using(std::proofs::lemmas::Grind::common_steps, std::proofs::lemmas::Str::Pattern::starts_text))]
fn names_from(
    alloc: Global,
    entries: &[DirectoryEntry],
    cursor: usize,
    text: &str,
) -> Result<Vec<CompletionCandidate>, AllocError>
    ensures { IfOk result (λ candidates. map candidate_view candidates.items
        ≡ names_from entries.now cursor text.now) }
{
    let start = cursor.saturating_sub(text.len());
    let mut candidates = Vec::new(alloc);
    for entry in entries {
        if entry.name.as_str().starts_with(text) {
            candidates.push(CompletionCandidate {
                range: start..cursor,
                text: entry_text(alloc, entry)?,
            })?;
        }
    }
    Ok(candidates)
}

/// Returns the candidates for the path before a cursor, which is a boundary of the line. The path goes back to a space
/// or to the start of its row. What stands after its last slash begins a name, and what stands before is the directory:
/// its first listing has the names.
pub fn complete_file_name(
    alloc: Global,
    listings: &[Listing],
    line: &str,
    cursor: usize,
) -> Result<Vec<CompletionCandidate>, AllocError>
    requires { IsCharBoundary line.now cursor }
    ensures { IfOk result (λ candidates. map candidate_view candidates.items
        ≡ file_candidates listings.now (cut_at line.now cursor)) }
{
    let (directory, text) = split_begun("/", last_word(end_row(&line[..cursor])));
    names_from(alloc, entries_in(listings, directory), cursor, text)
}
