//! The names that a database has.

use sql_language::{Catalog, SqlTable, quoted_name};
use sqlite::{Alter, Connection, Error};
use std::alloc::Global;

/// The query for the names of tables and views.
pub const TABLES: &str =
    "SELECT name FROM sqlite_schema WHERE type IN ('table', 'view') ORDER BY name";

/// Reads the names of the columns of a table.
fn column_names<S: Alter>(
    alloc: Global,
    connection: &mut Connection<S>,
    table: &str,
) -> Result<Vec<String>, Error> {
    let table = quoted_name(alloc, table)?;
    let query = format!(in alloc; "SELECT * FROM {table}")?;
    let statement = connection.prepare(query.as_str())?;
    let mut names = Vec::new(alloc);
    for name in statement.column_names() {
        names.push(String::from_utf8_lossy(alloc, name.as_slice())?)?;
    }
    Ok(names)
}

/// Removes the names that would not be shown as they are: those with a control character.
fn keep_shown(names: &mut Vec<String>) {
    names.retain(|name| !name.as_str().chars().any(|c| c.is_control()));
}

/// Reads the names of a database. A table that can't be read has no columns.
pub fn read_catalog<S: Alter>(
    alloc: Global,
    connection: &mut Connection<S>,
) -> Result<Catalog, Error> {
    let mut names = Vec::new(alloc);
    let rows = connection.query_all(TABLES, &[])?;
    for row in &rows {
        names.push(row.get(0)?)?;
    }
    keep_shown(&mut names);
    let mut tables = Vec::new(alloc);
    for name in &names {
        let found = column_names(alloc, connection, name.as_str());
        let mut columns = found.unwrap_or(Vec::new(alloc));
        keep_shown(&mut columns);
        let name = name.clone()?;
        tables.push(SqlTable { name, columns })?;
    }
    for table in &tables {
        for column in &table.columns {
            names.push(column.clone()?)?;
        }
    }
    names.sort_unstable();
    names.dedup();
    Ok(Catalog { names, tables })
}
