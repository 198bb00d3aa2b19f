//! What completes a word of a statement.

use crate::catalog::{Catalog, completing_names, named_tables};
use crate::tokens::{TokenKind, tokenize};
use crate::words::is_start_of;
use std::alloc::{AllocError, Global};

/// Returns the word that is completed behind a text: its last token if that is a word, or an empty one behind white
/// space and marks. Behind a number, and within quotes and comments or right behind them, nothing is completed: `None`.
pub fn begun_word<'a>(alloc: Global, text: &'a str) -> Result<Option<&'a str>, AllocError> {
    let tokens = tokenize(alloc, text)?;
    let Some(last) = tokens.as_slice().last() else {
        return Ok(Some(""));
    };
    Ok(match last.kind {
        TokenKind::Word => Some(last.text),
        TokenKind::White | TokenKind::Mark => Some(""),
        _ => None,
    })
}

/// Returns the keywords that begin with a word, whatever its case.
fn completing_keywords(
    alloc: Global,
    keywords: &[String],
    word: &str,
) -> Result<Vec<String>, AllocError> {
    let mut texts = Vec::new(alloc);
    for keyword in keywords {
        if is_start_of(word, keyword.as_str()) {
            texts.push(keyword.clone()?)?;
        }
    }
    Ok(texts)
}

/// Returns what completes a word of a statement: names of the database that it may mean, as it has them, and then
/// keywords.
pub fn completions(
    alloc: Global,
    keywords: &[String],
    catalog: &Catalog,
    statement: &str,
    word: &str,
) -> Result<Vec<String>, AllocError> {
    let tokens = tokenize(alloc, statement)?;
    let named = named_tables(alloc, &catalog.tables, &tokens)?;
    let mut texts = completing_names(alloc, keywords, catalog, &named, word)?;
    texts.append(&mut completing_keywords(alloc, keywords, word)?)?;
    Ok(texts)
}
