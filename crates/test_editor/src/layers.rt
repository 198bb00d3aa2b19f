//! Tests of the layers below the editor: surfaces, screens, keys, lines, histories, terminals and paintings; and of
//! what is known of statements of SQL.

mod cell;
mod error;
mod history;
mod input;
mod line;
mod painter;
mod screen;
mod scrolling_screen;
mod sequence;
mod statements;
mod support;
mod terminal;
