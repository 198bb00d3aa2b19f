//! What all of several words begin with, and a candidate of what several candidates share.

ghost use Rattle.std.specs.Prelude.{◌≡◌, IfOk, eqb, map, option_map, string_bytes};
ghost use Rattle.std.specs.List.{common_prefix_len};
ghost use Rattle.tw_host.specs.CandidateView.{candidate_view};
ghost use Rattle.tw_hosts.specs.SharedCandidate.{beginning_first, candidate_texts, common_beginning, is_one_part, shared_candidate};

use std::alloc::{AllocError, Global};
use tw_host::CompletionCandidate;

/// Returns how many bytes two texts have in common before they differ.
fn shared_len(text: &[u8], other: &[u8]) -> usize
    ensures { result ≡ common_prefix_len eqb text.now other.now }
{
    let mut len = 0;
    while len < text.len() && len < other.len() && text[len] == other[len] {
        len += 1;
    }
    len
}

/// Returns the longest text in whole characters with which each of the words begins. It is empty if there is no word.
pub fn common_beginning<'words>(words: &'words [String]) -> &'words str
    ensures { result.now ≡ common_beginning (map string_bytes words.now) }
{
    let Some((first, others)) = words.split_first() else {
        return "";
    };
    let text = first.as_str();
    let bytes = text.as_bytes();
    let end = others.iter().fold(bytes.len(), |end: usize, other| {
        end.min(shared_len(bytes, other.as_bytes()))
    });
    &text[..text.floor_char_boundary(end)]
}

/// Returns the texts of candidates.
fn candidate_texts(
    alloc: Global,
    candidates: &[CompletionCandidate],
) -> Result<Vec<String>, AllocError>
    ensures { IfOk result (λ texts. map string_bytes texts.items
        ≡ candidate_texts (map candidate_view candidates.now)) }
{
    let mut texts = Vec::new(alloc);
    for candidate in candidates {
        texts.push(candidate.text.clone()?)?;
    }
    Ok(texts)
}

/// Returns true if all candidates are for the bytes of the line from `start` to `end`.
fn is_one_part(start: usize, end: usize, candidates: &[CompletionCandidate]) -> bool
    ensures { result ≡ is_one_part start end (map candidate_view candidates.now) }
{
    candidates.iter().all(|candidate| candidate.range.start == start && candidate.range.end == end)
}

/// Returns the text that several candidates share as a candidate, if all are for one part of the line and it is longer
/// than that part.
fn shared_candidate(
    alloc: Global,
    candidates: &[CompletionCandidate],
) -> Result<Option<CompletionCandidate>, AllocError>
    ensures { IfOk result (λ shared. option_map candidate_view shared
        ≡ shared_candidate (map candidate_view candidates.now)) }
{
    let [first, _, ..] = candidates else {
        return Ok(None);
    };
    let (start, end) = (first.range.start, first.range.end);
    let texts = candidate_texts(alloc, candidates)?;
    let text = common_beginning(&texts);
    if is_one_part(start, end, candidates) && text.len() > end.saturating_sub(start) {
        Ok(Some(CompletionCandidate {
            range: start..end,
            text: String::from_str(alloc, text)?,
        }))
    } else {
        Ok(None)
    }
}

/// Returns the longest text with which all candidates begin as the one candidate, if they are for one part of the line
/// and the text is longer than that part; otherwise the candidates. So the first Tab completes a word up to where the
/// candidates part, and the next one offers them in turn.
pub fn beginning_first(
    alloc: Global,
    candidates: Vec<CompletionCandidate>,
) -> Result<Vec<CompletionCandidate>, AllocError>
    ensures { IfOk result (λ first. map candidate_view first.items
        ≡ beginning_first (map candidate_view candidates.items)) }
{
    match shared_candidate(alloc, &candidates)? {
        Some(shared) => Ok(vec![in alloc; shared]?),
        None => Ok(candidates),
    }
}
