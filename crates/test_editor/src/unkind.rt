//! A host that keeps the laws and is unkind all the same.

ghost use Rattle.std.specs.Prelude.{refl};
ghost use Rattle.test_editor.specs.StrayHost.{Stray, stray_rules, stray_overrides, stray_is_plain};

use std::alloc::{AllocError, Global};
use tw_input::{InputEvent, KeyCode, KeyEvent};
use tw_lineedit::{
    Action, BasicHistory, LineEditBuffer, LineEditorHost, OutputElement, Overrides, plain_element,
};
use tw_surface::unicode_column_width;

/// A host with three stray keys: F1 empties its history, F2 makes the line `abc` with the cursor after the `a`,
/// and F3 sends the cursor to the greatest column that there is, and repaints.
#[derive(Drop)]
pub struct StrayHost {
    history: BasicHistory,
    is_away: bool,
}

impl LineEditorHost for StrayHost {
    type Hist = BasicHistory;

    ghost Value = { Stray };

    ghost value = { λ host. record { lines = host.history; is_away = host.is_away } };

    ghost rules = { stray_rules };

    ghost history_of = { λ host. host.history };

    ghost with_history = { λ host history. record host { history = history } };

    ghost OVERRIDES = { stray_overrides };

    const OVERRIDES: Overrides = Overrides {
        highlight_line: true,
        resolve_action: true,
        ..Overrides::NONE
    };

    fn history(&mut self) -> &mut BasicHistory {
        &mut self.history
    }

    fn highlight_line(
        &self,
        alloc: Global,
        line: &str,
        cursor_position: usize,
    ) -> Result<(Vec<OutputElement>, usize), AllocError> {
        let elements = plain_element(alloc, line)?;
        let column = if self.is_away {
            usize::MAX
        } else {
            unicode_column_width(&line[..cursor_position])
        };
        Ok((elements, column))
    }

    fn resolve_action(
        &mut self,
        alloc: Global,
        event: &InputEvent,
        editor: &mut LineEditBuffer,
    ) -> Result<Option<Action>, AllocError> {
        match event {
            InputEvent::Key(
                KeyEvent {
                    key: KeyCode::Function(1),
                    modifiers: _,
                },
            ) => {
                self.history = BasicHistory::new(alloc);
                Ok(Some(Action::NoAction))
            }
            InputEvent::Key(
                KeyEvent {
                    key: KeyCode::Function(2),
                    modifiers: _,
                },
            ) => {
                editor.set_line_and_cursor("abc", 1)?;
                Ok(Some(Action::NoAction))
            }
            InputEvent::Key(
                KeyEvent {
                    key: KeyCode::Function(3),
                    modifiers: _,
                },
            ) => {
                self.is_away = true;
                Ok(Some(Action::Repaint))
            }
            _ => Ok(None),
        }
    }

    ghost plain_answers = { stray_is_plain };

    ghost history_put_back = { λ host. refl };

    ghost held_put = { λ host history. refl };

    ghost held_lines = { λ host. refl };
}

/// Returns the host with an empty history.
pub fn stray_host(alloc: Global) -> StrayHost {
    StrayHost {
        history: BasicHistory::new(alloc),
        is_away: false,
    }
}
