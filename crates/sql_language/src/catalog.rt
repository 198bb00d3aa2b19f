//! The names of a database, and which of them a statement may mean.

use crate::names::{is_named, written_name};
use crate::tokens::Token;
use crate::words::{has_word, is_start_of};
use std::alloc::{AllocError, Global};

/// A table or a view.
#[derive(Debug, Drop)]
pub struct SqlTable {
    /// Its name.
    pub name: String,
    /// The names of its columns.
    pub columns: Vec<String>,
}

/// The names of a database.
#[derive(Debug, Drop)]
pub struct Catalog {
    /// Those of tables, views and columns, in the order in which they complete a word.
    pub names: Vec<String>,
    /// The tables and views.
    pub tables: Vec<SqlTable>,
}

/// Returns true if a name is that of one of these tables.
fn has_table(tables: &[SqlTable], name: &str) -> bool {
    tables.iter().any(|table| table.name.as_str() == name)
}

/// Returns true if a name is that of a column of one of these tables, whatever its case.
fn has_column(tables: &[&SqlTable], name: &str) -> bool {
    tables.iter().any(|table| has_word(&table.columns, name))
}

/// Returns true if a statement that names some of the tables may mean a name.
fn is_in_scope(tables: &[SqlTable], named: &[&SqlTable], name: &str) -> bool {
    named.is_empty() || has_table(tables, name) || has_column(named, name)
}

/// Returns true if a name completes a word in a statement that names some of the tables.
fn completes(tables: &[SqlTable], named: &[&SqlTable], word: &str, name: &str) -> bool {
    is_start_of(word, name) && is_in_scope(tables, named, name)
}

/// Returns the tables that one of some tokens names, whatever its case.
pub fn named_tables<'a>(
    alloc: Global,
    tables: &'a [SqlTable],
    tokens: &[Token<'_>],
) -> Result<Vec<&'a SqlTable>, AllocError> {
    let mut named = Vec::new(alloc);
    for table in tables {
        if is_named(tokens, table.name.as_str()) {
            named.push(table)?;
        }
    }
    Ok(named)
}

/// Returns the names of a database that complete a word in a statement that names some of its tables, as the statement
/// has them: those of tables, and of columns of the tables that it names, or of all columns if it names none.
pub fn completing_names(
    alloc: Global,
    keywords: &[String],
    catalog: &Catalog,
    named: &[&SqlTable],
    word: &str,
) -> Result<Vec<String>, AllocError> {
    let mut texts = Vec::new(alloc);
    for name in &catalog.names {
        if completes(&catalog.tables, named, word, name.as_str()) {
            texts.push(written_name(alloc, keywords, name.as_str())?)?;
        }
    }
    Ok(texts)
}
