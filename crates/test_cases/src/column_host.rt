//! A host with a column of its own.

ghost use Rattle.std.specs.Prelude.{◌≡◌, [], refl};
ghost use Rattle.test_cases.specs.ColumnHost.{Placed, column_rules, highlight_override, column_is_plain};

use std::alloc::{AllocError, Global};
use tw_lineedit::{BasicHistory, LineEditorHost, OutputElement, Overrides, plain_element};

/// A host that puts the cursor of every line at one column.
#[derive(Drop)]
pub struct ColumnHost {
    history: BasicHistory,
    column: usize,
}

impl ColumnHost {
    /// Creates the host with an empty history and this column. Takes no memory.
    pub fn new(alloc: Global, column: usize) -> Self
        ensures { ⟦<ColumnHost as LineEditorHost>⟧.value result
            ≡ record { lines = []; column = column } }
    {
        let history = BasicHistory::new(alloc);
        ColumnHost { history, column }
    }
}

impl LineEditorHost for ColumnHost {
    type Hist = BasicHistory;

    ghost Value = { Placed };

    ghost value = { λ host. record { lines = host.history; column = host.column } };

    ghost rules = { column_rules };

    ghost history_of = { λ host. host.history };

    ghost with_history = { λ host history. record host { history = history } };

    ghost OVERRIDES = { highlight_override };

    const OVERRIDES: Overrides = Overrides {
        highlight_line: true,
        ..Overrides::NONE
    };

    fn history(&mut self) -> &mut BasicHistory {
        &mut self.history
    }

    fn highlight_line(
        &self,
        alloc: Global,
        line: &str,
        _cursor_position: usize,
    ) -> Result<(Vec<OutputElement>, usize), AllocError> {
        Ok((plain_element(alloc, line)?, self.column))
    }

    ghost plain_answers = { column_is_plain };

    ghost history_put_back = { λ host. refl };

    ghost held_put = { λ host history. refl };

    ghost held_lines = { λ host. refl };
}
