//! The language of SQL texts, as far as a prompt reads it: where tokens and statements end, and what completes a word.
//!
//! Use it to cut a script into statements, or to colour and complete one while it is typed.
//!
//! From `crates/example_sql/src/session.rt`:
//!
//! ```
//! let Some(len) = statement_len(rest) else {
//!     break;
//! };
//! let (statement, _) = rest.split_at(len);
//! self.run_statement(connection, statement)?;
//! ```
#![tactic(auto)]

mod catalog;
mod completion;
mod lexer;
mod names;
mod statements;
mod tokens;
mod words;

pub use catalog::{Catalog, SqlTable};
pub use completion::{begun_word, completions};
pub use names::quoted_name;
pub use statements::statement_len;
pub use tokens::{Token, TokenKind, first_token, tokenize};
pub use words::has_word;
