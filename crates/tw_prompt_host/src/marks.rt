//! The marks of a language.

ghost use Rattle.std.specs.Prelude.{◌≡◌, IfOk};
ghost use Rattle.tw_prompt_host.specs.Nesting.{closes, common_pairs, is_closing, is_letter_or_space, mark_no_letter, opened_pair};

use std::alloc::{AllocError, Global};

/// What stands between two marks.
#[derive(Clone, Copy, Debug, PartialEq, Eq)]
pub enum MarkKind {
    /// Text with marks of its own.
    Brackets,
    /// Text up to the closing mark. After the escape character, if there is one, any character is text.
    Quotation {
        /// The escape character.
        escape: Option<char>,
    },
    /// One character, whichever it is: the mark is an escape character.
    Escape,
}

/// Two marks that belong together: brackets, or the marks around a quotation.
#[derive(Clone, Copy, Debug, PartialEq, Eq)]
pub struct MarkPair {
    /// The mark that opens.
    pub opening: char,
    /// The mark that closes. It may be the same one.
    pub closing: char,
    /// What stands between them.
    pub kind: MarkKind,
}

impl MarkPair {
    /// Creates a pair of marks.
    pub(crate) fn new(opening: char, closing: char, kind: MarkKind) -> Self
        ensures { result ≡ record { opening = opening; closing = closing; kind = kind } }
    {
        MarkPair {
            opening,
            closing,
            kind,
        }
    }

    /// Returns true if a character closes the pair once it is open.
    pub fn closes(&self, c: char) -> bool
        ensures { result ≡ closes self.now c }
    {
        match self.kind {
            MarkKind::Escape => true,
            MarkKind::Brackets | MarkKind::Quotation { .. } => self.closing == c,
        }
    }
}

/// An opening mark in a text.
#[derive(Clone, Copy, Debug, PartialEq, Eq)]
pub struct OpenMark {
    /// Its pair.
    pub pair: MarkPair,
    /// The byte offset of the mark.
    pub at: usize,
}

/// Returns the pairs of many languages: round, square and curly brackets, and quotations in single or double marks with
/// a backslash as their escape character.
pub fn common_pairs(alloc: Global) -> Result<Vec<MarkPair>, AllocError>
    ensures { IfOk result (λ pairs. pairs.items ≡ common_pairs) }
{
    let quotation = MarkKind::Quotation { escape: Some('\\') };
    let pairs = vec![in alloc;
        MarkPair::new('(', ')', MarkKind::Brackets),
        MarkPair::new('[', ']', MarkKind::Brackets),
        MarkPair::new('{', '}', MarkKind::Brackets),
        MarkPair::new('"', '"', quotation),
        MarkPair::new('\'', '\'', quotation),
    ]?;
    Ok(pairs)
}

/// Returns true if a character is a small letter of ASCII or a space.
pub fn is_letter_or_space(c: char) -> bool
    ensures { result ≡ is_letter_or_space c }
{
    c == ' ' || ('a' <= c && c <= 'z')
}

/// Returns true if no letter is a mark of the pairs. It need not be looked for among them then.
pub fn mark_no_letter(pairs: &[MarkPair]) -> bool
    ensures { result ≡ mark_no_letter pairs.now }
{
    pairs.iter().all(|pair| !is_letter_or_space(pair.opening) && !is_letter_or_space(pair.closing))
}

/// Returns the first pair that a character opens.
pub fn opened_pair(pairs: &[MarkPair], c: char) -> Option<MarkPair>
    ensures { result ≡ opened_pair pairs.now c }
{
    pairs.iter().copied().find(|pair| pair.opening == c)
}

/// Returns true if a character is the closing mark of one of the pairs.
pub fn is_closing(pairs: &[MarkPair], c: char) -> bool
    ensures { result ≡ is_closing pairs.now c }
{
    pairs.iter().any(|pair| pair.closing == c)
}
