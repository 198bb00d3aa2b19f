//! What was read of a statement that has no end yet.

use crate::language::is_blank;
use sql_language::first_token;
use std::alloc::{AllocError, Global};

/// The rows of a statement that has no end yet, each with its line feed. A token is read again only if it goes on in the
/// next row.
#[derive(Drop)]
pub struct Begun {
    text: String,
    /// The byte offset of the last token.
    last: usize,
    /// True if the tokens before it are white space and comments.
    is_blank: bool,
}

/// Returns true if a token cannot end in a row: it is in quotes, or a comment, and the row has none of their ends.
fn goes_on(token: &str, row: &str) -> bool {
    match token.chars().next() {
        Some(quote @ ('\'' | '"' | '`')) => !row.contains(quote),
        Some('[') => !row.contains(']'),
        Some('/') => !row.contains('/'),
        _ => false,
    }
}

impl Begun {
    /// Creates a statement of no rows.
    pub fn new(alloc: Global) -> Self {
        Begun {
            text: String::new(alloc),
            last: 0,
            is_blank: true,
        }
    }

    /// Returns true if there are no rows.
    pub fn is_empty(&self) -> bool {
        self.text.is_empty()
    }

    /// Returns the rows.
    pub fn as_str(&self) -> &str {
        self.text.as_str()
    }

    /// Forgets the rows.
    pub fn clear(&mut self) {
        self.text.clear();
        self.last = 0;
        self.is_blank = true;
    }

    /// Appends what is left of rows, of which the statements that end were run.
    pub fn push_rest(&mut self, rest: &str) -> Result<(), AllocError> {
        self.text.push_str(rest)?;
        let _ends = self.read_tokens();
        Ok(())
    }

    /// Appends a row. Returns true if a semicolon came with it that is a token of its own. Rows of nothing but white
    /// space and comments are forgotten.
    pub fn push_row(&mut self, row: &str) -> Result<bool, AllocError> {
        let may_end = !goes_on(self.rest(), row);
        self.text.push_str(row)?;
        self.text.push('\n')?;
        Ok(may_end && self.read_tokens())
    }

    /// Returns the last token, and what comes behind it.
    fn rest(&self) -> &str {
        self.text.as_str().get(self.last..).unwrap_or("")
    }

    /// Reads up to the last token. Returns true if one of those before it is a semicolon.
    fn read_tokens(&mut self) -> bool {
        let mut ends = false;
        for _ in self.last..self.text.len() {
            let (token, after) = first_token(self.rest());
            let (len, is_end) = (token.text.len(), token.text == ";");
            let (is_last, is_blank) = (after.is_empty(), self.is_blank && is_blank(token.text));
            if is_last {
                if is_blank {
                    self.clear();
                }
                break;
            }
            self.is_blank = is_blank;
            self.last = self.last.saturating_add(len);
            ends = ends || is_end;
        }
        ends
    }
}
