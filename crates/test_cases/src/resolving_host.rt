//! A host that resolves events for itself.

ghost use Rattle.std.specs.Prelude.{◌≡◌, [], ℕ, List, refl};
ghost use Rattle.test_cases.specs.ResolvingHost.{resolving_rules, resolve_override, resolving_is_plain};

use std::alloc::{AllocError, Global};
use tw_input::{InputEvent, KeyCode, KeyEvent};
use tw_lineedit::{Action, BasicHistory, LineEditBuffer, LineEditorHost, Overrides};

/// A host that has a line of its own for the first function key, and gives up at Escape.
#[derive(Drop)]
pub struct ResolvingHost {
    history: BasicHistory,
}

impl ResolvingHost {
    /// Creates the host with an empty history. Takes no memory.
    pub fn new(alloc: Global) -> Self
        ensures { ⟦<ResolvingHost as LineEditorHost>⟧.value result ≡ [] }
    {
        ResolvingHost {
            history: BasicHistory::new(alloc),
        }
    }
}

impl LineEditorHost for ResolvingHost {
    type Hist = BasicHistory;

    ghost Value = { List (List ℕ) };

    ghost value = { λ host. host.history };

    ghost rules = { resolving_rules };

    ghost history_of = { λ host. host.history };

    ghost with_history = { λ host history. record host { history = history } };

    ghost OVERRIDES = { resolve_override };

    const OVERRIDES: Overrides = Overrides {
        resolve_action: true,
        ..Overrides::NONE
    };

    fn history(&mut self) -> &mut BasicHistory {
        &mut self.history
    }

    fn resolve_action(
        &mut self,
        _alloc: Global,
        event: &InputEvent,
        editor: &mut LineEditBuffer,
    ) -> Result<Option<Action>, AllocError> {
        match event {
            InputEvent::Key(
                KeyEvent {
                    key: KeyCode::Function(1),
                    modifiers: _,
                },
            ) => {
                editor.set_line_and_cursor("clear", 5)?;
                Ok(Some(Action::NoAction))
            }
            InputEvent::Key(
                KeyEvent {
                    key: KeyCode::Escape,
                    modifiers: _,
                },
            ) => Ok(Some(Action::Cancel)),
            _ => Ok(None),
        }
    }

    ghost plain_answers = { resolving_is_plain };

    ghost history_put_back = { λ host. refl };

    ghost held_put = { λ host history. refl };

    ghost held_lines = { λ host. refl };
}
