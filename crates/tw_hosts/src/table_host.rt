//! A host that is plain data.

ghost use Rattle.std.specs.Prelude.{◌≡◌, refl};
ghost use Rattle.tw_host.specs.PlainAnswers.{all_overrides, no_plain_left};
ghost use Rattle.tw_hosts.specs.TableRules.{TablesView, table_rules, tables_view};

use crate::bindings::{KeyBinding, resolve_key};
use crate::hints::{Hint, show_hint};
use crate::tokens::{Styles, highlight_tokens};
use crate::words::complete_word;
use std::alloc::{AllocError, Global};
use tw_host::{
    Action, CompletionCandidate, LineEditorHost, OutputElement, Overrides, plain_element,
};
use tw_input::InputEvent;
use tw_line::{History, LineEditBuffer};
use tw_surface::unicode_column_width;

/// What a host of tables shows and completes, and what its keys do.
#[derive(Debug, Drop)]
pub struct Tables {
    /// Words that are shown in the style of keywords.
    pub keywords: Vec<String>,
    /// Words that complete the one before the cursor.
    pub words: Vec<String>,
    /// Hints under the line, by its first word.
    pub hints: Vec<Hint>,
    /// Keys of the host's own, which are asked before the editor's key table.
    pub keys: Vec<KeyBinding>,
    /// How keywords and quoted texts are shown.
    pub styles: Styles,
}

/// A host that answers by its tables, over any history.
#[derive(Debug, Drop)]
pub struct TableHost<H> {
    tables: Tables,
    history: H,
}

impl<H: History> TableHost<H> {
    /// Creates a host of these tables and this history.
    pub fn new(tables: Tables, history: H) -> Self
        ensures rules { ⟦<TableHost<H> as LineEditorHost>⟧.rules ≡ table_rules }
        ensures value { ⟦<TableHost<H> as LineEditorHost>⟧.value result
            ≡ tables_view tables (H.lines history) }
    {
        TableHost { tables, history }
    }

    /// Sets the tables. The history stays.
    pub fn set_tables(&mut self, tables: Tables)
        ensures value { ⟦<TableHost<H> as LineEditorHost>⟧.value self.new
            ≡ tables_view tables (H.lines self.old.history) }
        ensures history { self.new.history ≡ self.old.history }
    {
        self.tables = tables;
    }

    /// Lends the history to be read. `history` of `LineEditorHost` lends it to be changed.
    pub fn history_kept(&self) -> &H
        ensures { result.now ≡ self.now.history }
    {
        &self.history
    }

    /// Returns the history, for another host. The tables are dropped.
    pub fn into_history(self) -> H
        ensures { result ≡ self.history }
    {
        let TableHost { tables: _, history } = self;
        history
    }
}

impl<H: History> LineEditorHost for TableHost<H> {
    type Hist = H;

    ghost Value = { TablesView };

    ghost value = { λ host. tables_view host.tables (H.lines host.history) };

    ghost rules = { table_rules };

    ghost history_of = { λ host. host.history };

    ghost with_history = { λ host history. record host { history = history } };

    ghost OVERRIDES = { all_overrides };

    const OVERRIDES: Overrides = Overrides::ALL;

    fn history(&mut self) -> &mut H {
        &mut self.history
    }

    fn render_prompt(&self, alloc: Global, prompt: &str) -> Result<Vec<OutputElement>, AllocError> {
        plain_element(alloc, prompt)
    }

    fn render_preview(&self, alloc: Global, line: &str) -> Result<Vec<OutputElement>, AllocError> {
        show_hint(alloc, self.tables.hints.as_slice(), line)
    }

    fn highlight_line(
        &self,
        alloc: Global,
        line: &str,
        cursor_position: usize,
    ) -> Result<(Vec<OutputElement>, usize), AllocError> {
        let keywords = self.tables.keywords.as_slice();
        let elements = highlight_tokens(alloc, self.tables.styles, keywords, line)?;
        Ok((elements, unicode_column_width(&line[..cursor_position])))
    }

    fn complete(
        &self,
        alloc: Global,
        line: &str,
        cursor_position: usize,
    ) -> Result<Vec<CompletionCandidate>, AllocError> {
        complete_word(alloc, self.tables.words.as_slice(), line, cursor_position)
    }

    fn resolve_action(
        &mut self,
        _alloc: Global,
        event: &InputEvent,
        editor: &mut LineEditBuffer,
    ) -> Result<Option<Action>, AllocError> {
        Ok(resolve_key(self.tables.keys.as_slice(), event, editor))
    }

    ghost plain_answers = { no_plain_left };

    ghost history_put_back = { λ host. refl };

    ghost held_put = { λ host history. refl };

    ghost held_lines = { λ host. refl };
}
