//! Parts with keys: readline's keys, a kill ring, undo, and more, put together by a prompt.
//!
//! Two parts as a pair are a part. Use them as the field `keys` of a `PromptHost`, and implement `KeyPart` for one of
//! your own (docs/OWN_PARTS.md).
//!
//! From `crates/tw_prompt/src/keys.rt`:
//!
//! ```
//! let edits = (Keys(WordKeys), (Keys(LineKeys), CharacterSearch::new()));
//! let words = (Keys(LetterWords), (Keys(ReadlineKeys), edits));
//! let lines = (EditedLines::new(alloc), LastPattern::new(alloc));
//! let recalls = (PrefixSearch::new(), lines);
//! let history = (LastWords::new(), recalls);
//! let others = (words, (history, KillRing::new(alloc)));
//! (UndoSteps::new(alloc), others)
//! ```
#![tactic(auto)]

mod character_search;
mod edit;
mod edited_lines;
mod keys;
mod last_pattern;
mod last_words;
pub mod laws;
mod letter_keys;
mod line_keys;
mod pair;
mod part;
mod plain_keys;
mod prefix_search;
mod readline_keys;
mod recalled;
mod ring;
mod row_keys;
mod steps;
mod undo;
mod watch;
mod word_edits;
mod word_keys;

pub use character_search::CharacterSearch;
pub use edit::{Edit, EditResult};
pub use edited_lines::EditedLines;
pub use keys::is_key;
pub use last_pattern::LastPattern;
pub use last_words::LastWords;
pub use letter_keys::LetterWords;
pub use line_keys::{LineEdit, LineKeys, commented, line_edit_of, without_blanks};
pub use part::{Asked, KeyPart, Step, follow_event};
pub use plain_keys::{Keys, PlainKeys};
pub use prefix_search::PrefixSearch;
pub use readline_keys::ReadlineKeys;
pub use ring::{KillRing, Latest, is_same_cut};
pub use row_keys::RowKeys;
pub use steps::{steps_to_word_end, steps_to_word_start};
pub use undo::UndoSteps;
pub use watch::{is_filled, searches_after};
pub use word_edits::{
    WordCase, in_case, passed_text, with_swapped_clusters, with_swapped_words, with_word_in,
};
pub use word_keys::{WordEdit, WordKeys, edited_line, word_edit};
