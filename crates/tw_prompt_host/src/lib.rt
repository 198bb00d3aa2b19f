//! A prompt as one host, with the comforts of readline as its fields.
//!
//! Use `PromptHost::new` and set its fields; `with_host`, `with_history`, `with_keys` and `with_validator` replace
//! fields by values of other types. docs/GUIDE.md has the table of fields.
//!
//! From `crates/prompt_demo/src/host.rt`:
//!
//! ```
//! let mut host = PromptHost::new(alloc, prompt, 80)?
//!     .with_host(TableHost::new(tables, BasicHistory::new(alloc)))
//!     .with_history(RecentHistory::new(alloc, LINES_KEPT))
//!     .with_keys((RowKeys::new(), all_keys(alloc)))
//!     .with_validator(NestedLines { pairs });
//! host.completers = completers;
//! host.hints = Hints::dim();
//! ```
#![tactic(auto)]

mod after_line;
mod answers;
mod failing;
mod going;
mod hint;
pub mod laws;
mod layout;
mod marks;
mod menu;
mod menu_keys;
mod nested_lines;
mod nesting;
mod plain;
mod prepared;
mod prompt;
mod rows;
mod validator;

pub use going::{Going, gives_up};
pub use hint::Hints;
pub use layout::MenuStyle;
pub use marks::{MarkKind, MarkPair, OpenMark, common_pairs};
pub use nested_lines::NestedLines;
pub use nesting::{Nesting, closed_mark, nesting_in};
pub use prepared::{PreparedHost, StyledRange, styled_ranges};
pub use prompt::PromptHost;
pub use rows::Rows;
pub use validator::{AllLines, PreparedLines, Validation, Validator};
