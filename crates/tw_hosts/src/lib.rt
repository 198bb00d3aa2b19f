//! Ready parts of hosts, completions as readline has them, and a host of tables that is made of such parts.
//!
//! Each part is a function whose contract is the rule that it answers by. Use them to write a host of your own, or
//! `TableHost` if plain data will do.
//!
//! From `crates/worked_host/src/host.rt`:
//!
//! ```
//! let (word, rest) = split_first_word(line);
//! if !is_known(self.known.as_slice(), word) {
//!     return plain_element(alloc, line);
//! }
//! let mut elements = styled(alloc, bold(), word)?;
//! elements.push(OutputElement::text(alloc, rest)?)?;
//! Ok(elements)
//! ```
//!
//! Words of a list and file names complete a line by its context: as the field `completers` of a `PromptHost`, or as
//! functions in a host of your own. From `crates/prompt_demo/src/completers.rt`:
//!
//! ```
//! let counted = WordList {
//!     words: words(alloc, COUNTED)?,
//!     delimiters: String::from_str(alloc, " ,")?,
//!     ignores_case: true,
//! };
//! let completers = vec![in alloc;
//!     arguments(alloc, "copy", Completer::FileNames)?,
//! ..
//!     arguments(alloc, "count", Completer::Words(counted))?,
//! ]?;
//! ```
#![tactic(auto)]

mod bindings;
mod completers;
mod file_names;
mod hints;
pub mod laws;
mod settling;
mod shared;
mod table_host;
mod tokens;
mod word_lists;
mod words;

pub use bindings::{Binding, KeyBinding, binding_action, bound, resolve_key};
pub use completers::{Completer, Context, ContextCompleter, complete_in_context};
pub use file_names::{DirectoryEntry, Listing, complete_file_name};
pub use hints::{Hint, show_hint};
pub use settling::{PromptScreen, settled_column};
pub use shared::{beginning_first, common_beginning};
pub use table_host::{TableHost, Tables};
pub use tokens::{Styles, highlight_tokens, split_token, styled};
pub use word_lists::{WordList, complete_listed};
pub use words::{
    complete_word, end_row, first_word, is_known, last_word, split_begun, split_first_word,
    words_from,
};
