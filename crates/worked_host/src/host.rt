//! A host for a small command prompt.

ghost use Rattle.std.specs.Prelude.{◌≡◌, [], IfOk, map, refl, string_bytes};
ghost use Rattle.tw_lineedit.specs.ElementView.{element_view};
ghost use Rattle.tw_lineedit.specs.PlainAnswers.{all_overrides, no_plain_left};
ghost use Rattle.worked_host.specs.CommandRules.{bold, command_rules, own_keys, shown_line};
ghost use Rattle.worked_host.specs.Commands.{Commands};

use std::alloc::{AllocError, Global};
use tw_hosts::{
    Binding, KeyBinding, complete_word, is_known, resolve_key, split_first_word, styled,
};
use tw_input::{InputEvent, KeyCode, KeyEvent, Modifiers};
use tw_lineedit::{
    Action, BasicHistory, CompletionCandidate, LineEditBuffer, LineEditorHost, Movement,
    OutputElement, Overrides, plain_element,
};
use tw_surface::{CellAttributes, Intensity, unicode_column_width};

/// A host that knows some commands, with a history in memory. Where the first word of the line is a command
/// it is bold; Tab completes commands; Escape cancels, and Ctrl-U kills to the start of the line.
#[derive(Drop)]
pub struct CommandHost {
    known: Vec<String>,
    history: BasicHistory,
}

impl CommandHost {
    /// Creates the host that knows these commands, with an empty history. Takes no memory.
    pub fn new(alloc: Global, known: Vec<String>) -> Self
        ensures { ⟦<CommandHost as LineEditorHost>⟧.value result
            ≡ record { known = map string_bytes known.items; lines = [] } }
    {
        CommandHost {
            known,
            history: BasicHistory::new(alloc),
        }
    }

    /// Returns the line with its first word in bold, if it is a command.
    fn show(&self, alloc: Global, line: &str) -> Result<Vec<OutputElement>, AllocError>
        ensures { IfOk result (λ elements. map element_view elements.items
            ≡ shown_line (map string_bytes self.now.known.items) line.now) }
    {
        let (word, rest) = split_first_word(line);
        if !is_known(self.known.as_slice(), word) {
            return plain_element(alloc, line);
        }
        let mut elements = styled(alloc, bold(), word)?;
        elements.push(OutputElement::text(alloc, rest)?)?;
        Ok(elements)
    }
}

/// Returns the default attributes, but bold.
fn bold() -> CellAttributes
    ensures { result ≡ bold }
{
    let mut attributes = CellAttributes::default();
    attributes.intensity = Intensity::Bold;
    attributes
}

/// Returns the keys of the host's own.
fn own_keys() -> [KeyBinding; 2]
    ensures { result ≡ own_keys }
{
    [
        KeyBinding {
            key: KeyEvent {
                key: KeyCode::Escape,
                modifiers: Modifiers::NONE,
            },
            binding: Binding::Cancel,
        },
        KeyBinding {
            key: KeyEvent {
                key: KeyCode::Char('U'),
                modifiers: Modifiers::CTRL,
            },
            binding: Binding::Kill(Movement::StartOfLine),
        },
    ]
}

impl LineEditorHost for CommandHost {
    type Hist = BasicHistory;

    ghost Value = { Commands };

    ghost value = { λ host. record { known = map string_bytes host.known.items; lines = host.history } };

    ghost rules = { command_rules };

    ghost history_of = { λ host. host.history };

    ghost with_history = { λ host history. record host { history = history } };

    ghost OVERRIDES = { all_overrides };

    const OVERRIDES: Overrides = Overrides::ALL;

    fn history(&mut self) -> &mut BasicHistory {
        &mut self.history
    }

    fn render_prompt(&self, alloc: Global, prompt: &str) -> Result<Vec<OutputElement>, AllocError> {
        plain_element(alloc, prompt)
    }

    fn render_preview(&self, alloc: Global, _line: &str) -> Result<Vec<OutputElement>, AllocError> {
        Ok(Vec::new(alloc))
    }

    fn highlight_line(
        &self,
        alloc: Global,
        line: &str,
        cursor_position: usize,
    ) -> Result<(Vec<OutputElement>, usize), AllocError> {
        let column = unicode_column_width(&line[..cursor_position]);
        Ok((self.show(alloc, line)?, column))
    }

    fn complete(
        &self,
        alloc: Global,
        line: &str,
        cursor_position: usize,
    ) -> Result<Vec<CompletionCandidate>, AllocError> {
        complete_word(alloc, self.known.as_slice(), line, cursor_position)
    }

    fn resolve_action(
        &mut self,
        _alloc: Global,
        event: &InputEvent,
        editor: &mut LineEditBuffer,
    ) -> Result<Option<Action>, AllocError> {
        Ok(resolve_key(&own_keys(), event, editor))
    }

    ghost plain_answers = { no_plain_left };

    ghost history_put_back = { λ host. refl };

    ghost held_put = { λ host history. refl };

    ghost held_lines = { λ host. refl };
}
