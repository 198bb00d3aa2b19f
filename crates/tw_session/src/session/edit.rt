//! Edits of the line.

ghost use Rattle.std.specs.Prelude.{◌≡◌, ◌⊎◌, OnOk, OnErr};
ghost use Rattle.tw_session.specs.Steps.{edit_step};
ghost use Rattle.tw_session.specs.Edit.{edit_of, TakesMemoryToEdit};
ghost use Rattle.tw_session.specs.Memory.{SeeksAgain};
ghost use Rattle.tw_session.specs.SessionView.{on_state};

use super::{Mode, Session};
use std::alloc::AllocError;
use tw_host::LineEditorHost;
use tw_line::{History, LineEditBuffer, Movement, RepeatCount};

/// An edit of the line.
#[derive(Clone, Copy, Debug)]
pub(super) enum Edit<'a> {
    InsertChar(RepeatCount, char),
    InsertText(RepeatCount, &'a str),
    Kill(Movement, Movement),
}

impl Edit<'_> {
    /// Applies the edit to a line. A refusal leaves the line, and comes only if something is inserted.
    fn apply(self, line: &mut LineEditBuffer) -> Result<(), AllocError>
        ensures ok { OnOk result (line.new ≡ edit_of self.entry line.old) }
        ensures err { OnErr result (line.new ≡ line.old) }
        ensures memory { OnErr result (TakesMemoryToEdit self.entry) }
    {
        match self {
            Edit::InsertChar(count, c) => line.insert_char_times(count, c),
            Edit::InsertText(count, text) => line.insert_text_times(count, text),
            Edit::Kill(kill, movement) => {
                line.kill_text(kill, movement);
                Ok(())
            }
        }
    }
}

impl Session {
    /// Edits the line; while searching, the pattern, which is then applied again, where there are lines to seek it in.
    /// If it is refused, nothing is changed.
    #[tactic(auto, unfolding(crate::specs::Search::searched_again))]
    pub(super) fn edit<H: LineEditorHost>(
        &mut self,
        host: &mut H,
        edit: Edit<'_>,
    ) -> Result<(), AllocError>
        ensures host { host.new ≡ host.old }
        ensures ok { OnOk result (self.new
            ≡ on_state (edit_step (H.rules.lines (H.value host.old))
            (edit_of edit.entry)) self.old) }
        ensures err { OnErr result (self.new ≡ self.old) }
        ensures memory { let lines = H.rules.lines (H.value host.old) in
            OnErr result (TakesMemoryToEdit edit.entry ⊎ SeeksAgain lines self.old.state.mode) }
    {
        match self.mode {
            Mode::Searching { .. } if host.history().last().is_none() => {
                edit.apply(&mut self.line)?;
                self.history_index = None;
                Ok(())
            }
            Mode::Searching { .. } => {
                let mut pattern = LineEditBuffer::new(
                    self.alloc,
                    self.line.get_line(),
                    self.line.get_cursor(),
                )?;
                edit.apply(&mut pattern)?;
                self.search_again(host, pattern)
            }
            _ => edit.apply(&mut self.line),
        }
    }
}
