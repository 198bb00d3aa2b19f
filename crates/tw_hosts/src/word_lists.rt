//! Words that complete what is begun, up to a delimiter.

ghost use Rattle.std.specs.Prelude.{◌≡◌, IfOk, IsCharBoundary, map};
ghost use Rattle.tw_host.specs.CandidateView.{candidate_view};
ghost use Rattle.tw_line.specs.Cut.{cut_at};
ghost use Rattle.tw_hosts.specs.WordLists.{listed_candidates};

use crate::words::{end_row, split_begun, words_from};
use std::alloc::{AllocError, Global};
use tw_host::CompletionCandidate;

/// Words, and how what is begun of one is found in a line.
#[derive(Debug, Drop)]
pub struct WordList {
    /// The words, in the order in which they are offered.
    pub words: Vec<String>,
    /// The characters between words of a line. Those beyond ASCII part none.
    pub delimiters: String,
    /// Whether a word is offered whatever the case of its ASCII letters.
    pub ignores_case: bool,
}

/// Returns the candidates for what stands before a cursor in its row, after the last delimiter: those of the words that
/// begin with it, in their order. The cursor is a boundary of the line.
pub fn complete_listed(
    alloc: Global,
    list: &WordList,
    line: &str,
    cursor: usize,
) -> Result<Vec<CompletionCandidate>, AllocError>
    requires { IsCharBoundary line.now cursor }
    ensures { IfOk result (λ candidates. map candidate_view candidates.items
        ≡ listed_candidates list.now (cut_at line.now cursor)) }
{
    let (_, text) = split_begun(list.delimiters.as_str(), end_row(&line[..cursor]));
    words_from(alloc, &list.words, list.ignores_case, text, cursor)
}
