//! What a prompt knows of SQL while a line is typed.

use sql_language::{
    Catalog, Token, TokenKind, begun_word, completions, first_token, has_word, statement_len,
    tokenize,
};
use std::alloc::{AllocError, Global};
use tw_prompt::{Application, Offers, Painter, Style, Validation};

/// The words that are shown as keywords, and completed.
const KEYWORDS: &str =
    "ABORT ADD ALL ALTER AND AS ASC AUTOINCREMENT BEGIN BETWEEN BY CASCADE CASE CAST CHECK COLLATE \
    COLUMN COMMIT CONFLICT CONSTRAINT CREATE CROSS DEFAULT DELETE DESC DISTINCT DO DROP ELSE END ESCAPE EXCEPT EXISTS \
    EXPLAIN FOREIGN FROM FULL GLOB GROUP HAVING IF IN INDEX INNER INSERT INTEGER INTERSECT INTO IS JOIN KEY LEFT LIKE \
    LIMIT NATURAL NOT NULL OFFSET ON OR ORDER OUTER PRAGMA PRIMARY REAL RECURSIVE REFERENCES RENAME REPLACE RETURNING \
    ROLLBACK SELECT SET TABLE TEMP TEXT THEN TO TRANSACTION TRIGGER UNION UNIQUE UPDATE USING VALUES VIEW WHEN WHERE \
    WITH WITHOUT";

/// What a line lacks whose last statement has no end.
const NO_END: &str = "the statement has no end";

/// The keywords, and the names of the database.
#[derive(Drop)]
pub struct Language {
    keywords: Vec<String>,
    pub catalog: Catalog,
    /// True if lines are typed. Those of a script are taken one by one, and the session joins them.
    is_typed: bool,
}

/// Returns what stands behind the last statement that ends.
fn unfinished(text: &str) -> &str {
    let mut at: usize = 0;
    for _ in 0..text.len() {
        match statement_len(text.get(at..).unwrap_or("")) {
            Some(len) => at = at.saturating_add(len),
            None => break,
        }
    }
    text.get(at..).unwrap_or("")
}

/// Returns true if a text has nothing but white space and comments that end.
pub fn is_blank(text: &str) -> bool {
    let mut rest = text;
    for _ in 0..text.len() {
        let (token, after) = first_token(rest);
        match token.kind {
            TokenKind::White => {}
            TokenKind::Comment if token.text.starts_with("--") || token.text.ends_with("*/") => {}
            _ => return false,
        }
        rest = after;
    }
    true
}

impl Language {
    /// Creates the language of a database without names.
    pub fn new(alloc: Global, is_typed: bool) -> Result<Self, AllocError> {
        let mut keywords = Vec::new(alloc);
        for keyword in KEYWORDS.split(' ') {
            keywords.push(String::from_str(alloc, keyword)?)?;
        }
        let catalog = Catalog {
            names: Vec::new(alloc),
            tables: Vec::new(alloc),
        };
        Ok(Language {
            keywords,
            catalog,
            is_typed,
        })
    }

    /// Returns the style of a token: keywords are bold, texts green, numbers cyan and comments grey.
    fn style(&self, token: Token<'_>) -> Option<Style> {
        match token.kind {
            TokenKind::Word if has_word(&self.keywords, token.text) => Some(Style::plain().bold()),
            TokenKind::Text => Some(Style::green()),
            TokenKind::Number => Some(Style::cyan()),
            TokenKind::Comment => Some(Style::grey()),
            _ => None,
        }
    }
}

impl Application for Language {
    fn complete(&self, line: &str, offers: &mut Offers<'_>) -> Result<(), AllocError> {
        if line.starts_with('.') {
            return Ok(());
        }
        let alloc = offers.alloc();
        let cursor = offers.cursor;
        let before = line.get(..cursor).unwrap_or("");
        let Some(word) = begun_word(alloc, before)? else {
            return Ok(());
        };
        for text in completions(alloc, &self.keywords, &self.catalog, line, word)? {
            offers.add(cursor.saturating_sub(word.len())..cursor, text)?;
        }
        Ok(())
    }

    fn highlight(&self, line: &str, painter: &mut Painter) -> Result<(), AllocError> {
        let mut start: usize = 0;
        let tokens = tokenize(painter.alloc(), line)?;
        for token in &tokens {
            let end = start.saturating_add(token.text.len());
            if let Some(style) = self.style(*token) {
                painter.paint(start..end, style)?;
            }
            start = end;
        }
        Ok(())
    }

    /// Accepts a command, statements each of which ends, and each line of a script.
    fn validate(&self, alloc: Global, line: &str) -> Result<Validation, AllocError> {
        if !self.is_typed || line.starts_with('.') || is_blank(unfinished(line)) {
            return Ok(Validation::Valid);
        }
        Ok(Validation::Incomplete(String::from_str(alloc, NO_END)?))
    }
}
