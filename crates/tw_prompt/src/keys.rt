//! All keys of a prompt.

use std::alloc::Global;
use tw_key_parts::{
    CharacterSearch, EditedLines, Keys, KillRing, LastPattern, LastWords, LetterWords, LineKeys,
    PrefixSearch, ReadlineKeys, UndoSteps, WordKeys,
};

/// Edits of the line.
type EditParts = (Keys<WordKeys>, (Keys<LineKeys>, CharacterSearch));

/// Keys for words and the line.
type WordParts = (Keys<LetterWords>, (Keys<ReadlineKeys>, EditParts));

/// Keys for lines of the history.
type HistoryParts = (LastWords, (PrefixSearch, (EditedLines, LastPattern)));

/// All parts with keys. Undo stands before Ctrl-U, which it has after Ctrl-X.
pub type AllKeys = (UndoSteps, (WordParts, (HistoryParts, KillRing)));

/// Creates all parts with keys.
pub fn all_keys(alloc: Global) -> AllKeys {
    let edits = (Keys(WordKeys), (Keys(LineKeys), CharacterSearch::new()));
    let words = (Keys(LetterWords), (Keys(ReadlineKeys), edits));
    let lines = (EditedLines::new(alloc), LastPattern::new(alloc));
    let recalls = (PrefixSearch::new(), lines);
    let history = (LastWords::new(), recalls);
    let others = (words, (history, KillRing::new(alloc)));
    (UndoSteps::new(alloc), others)
}
