//! Where in a line a completion is asked for, and what completes there.

ghost use Rattle.std.specs.Prelude.{◌≡◌, IfOk, IsCharBoundary, map, option_map};
ghost use Rattle.tw_host.specs.CandidateView.{candidate_view};
ghost use Rattle.tw_line.specs.Cut.{cut_at};
ghost use Rattle.tw_hosts.specs.Completers.{candidates_by, context_candidates, completer_for, is_in};

use crate::file_names::{Listing, complete_file_name};
use crate::word_lists::{WordList, complete_listed};
use crate::words::{end_row, split_first_word};
use std::alloc::{AllocError, Global};
use tw_host::CompletionCandidate;

/// Where in a line a completion is asked for: words are parted by spaces, and whitespace before the first one does not
/// count.
#[derive(Debug, Drop)]
pub enum Context {
    /// Everywhere.
    Anywhere,
    /// In the first word, where what stands of it before the cursor begins with this text.
    FirstWord(String),
    /// After this first word and a space.
    ArgumentOf(String),
}

impl Context {
    /// Returns true if the text before a cursor is in the context.
    #[tactic(auto, using(std::proofs::lemmas::Grind::common_steps, std::proofs::lemmas::Str::Pattern::starts_text))]
    pub fn has(&self, before: &str) -> bool
        ensures { result ≡ is_in self.now before.now }
    {
        let (word, after) = split_first_word(before.trim_start());
        match self {
            Context::Anywhere => true,
            Context::FirstWord(prefix) => after.is_empty() && word.starts_with(prefix.as_str()),
            Context::ArgumentOf(command) => !after.is_empty() && word == command.as_str(),
        }
    }
}

/// What completes a word.
#[derive(Debug, Drop)]
pub enum Completer {
    /// Words of a list.
    Words(WordList),
    /// File names, by the listings that the host has.
    FileNames,
    /// Nothing.
    Nothing,
}

/// A context and its completer.
#[derive(Debug, Drop)]
pub struct ContextCompleter {
    /// Where the completer is asked.
    pub context: Context,
    /// The completer.
    pub completer: Completer,
}

/// Returns the completer of the first context that has the text before a cursor.
fn completer_for<'rows>(rows: &'rows [ContextCompleter], before: &str) -> Option<&'rows Completer>
    ensures { option_map (λ completer. completer.now) result ≡ completer_for rows.now before.now }
{
    let row = rows.iter().find(|row| row.context.has(before))?;
    Some(&row.completer)
}

/// Returns the candidates of a completer.
fn candidates_by(
    alloc: Global,
    listings: &[Listing],
    completer: &Completer,
    line: &str,
    cursor: usize,
) -> Result<Vec<CompletionCandidate>, AllocError>
    requires { IsCharBoundary line.now cursor }
    ensures { IfOk result (λ candidates. map candidate_view candidates.items
        ≡ candidates_by listings.now completer.now (cut_at line.now cursor)) }
{
    match completer {
        Completer::Words(list) => complete_listed(alloc, list, line, cursor),
        Completer::FileNames => complete_file_name(alloc, listings, line, cursor),
        Completer::Nothing => Ok(Vec::new(alloc)),
    }
}

/// Returns the candidates of the first completer whose context has what stands before the cursor in its row, if there
/// is one.
pub fn complete_in_context(
    alloc: Global,
    rows: &[ContextCompleter],
    listings: &[Listing],
    line: &str,
    cursor: usize,
) -> Result<Option<Vec<CompletionCandidate>>, AllocError>
    requires { IsCharBoundary line.now cursor }
    ensures { IfOk result (λ found. option_map (λ it. map candidate_view it.items) found
        ≡ context_candidates rows.now listings.now (cut_at line.now cursor)) }
{
    match completer_for(rows, end_row(&line[..cursor])) {
        Some(completer) => Ok(Some(candidates_by(alloc, listings, completer, line, cursor)?)),
        None => Ok(None),
    }
}
