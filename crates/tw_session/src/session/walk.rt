//! Steps through the history.

ghost use Rattle.std.specs.Prelude.{◌≡◌, ◌+◌, ◌<◌, ◌^◌, length, IfOk, IfSome, OnOk, OnErr, slice_get, option_map};
ghost use Rattle.std.specs.Cow.{cow_str_bytes};
ghost use Rattle.tw_line.specs.NearestMatch.{last_index};
ghost use Rattle.tw_session.specs.Memory.{HasLine, KeepsText, SearchesOr, TakesMemoryForth, index_before};
ghost use Rattle.tw_session.specs.Steps.{history_step};
ghost use Rattle.tw_session.specs.Walk.{previous_step, previous_of_typed, next_step, with_line_of, with_line_if, with_typed_line};
ghost use Rattle.tw_session.specs.SessionView.{on_state};

use super::{Mode, Session};
use std::alloc::{AllocError, Global};
use std::borrow::CowStr;
use tw_host::LineEditorHost;
use tw_line::{History, HistoryIndex, SearchDirection};

/// Returns the line at an index, if there is one. If there is none, the history is not asked.
fn line_at<L: History>(
    history: &L,
    alloc: Global,
    idx: HistoryIndex,
) -> Result<Option<CowStr<'_>>, AllocError>
    ensures line { IfOk result (λ line. option_map cow_str_bytes line
        ≡ slice_get (L.lines history.now) idx) }
    ensures memory { OnErr result (idx < length (L.lines history.now)) }
{
    match history.last() {
        Some(last) if idx <= last => history.get(alloc, idx),
        _ => Ok(None),
    }
}

/// Returns the line after an index, if there is one. If there is none, the history is not asked.
fn line_after<L: History>(
    history: &L,
    alloc: Global,
    idx: HistoryIndex,
) -> Result<Option<CowStr<'_>>, AllocError>
    ensures line { IfOk result (λ line. option_map cow_str_bytes line
        ≡ slice_get (L.lines history.now) (idx + 1)) }
    ensures fits { IfOk result (λ line. IfSome line (λ it. idx + 1 < 2 ^ 64)) }
    ensures memory { OnErr result (idx + 1 < length (L.lines history.now)) }
{
    match history.last() {
        Some(last) if idx < last => history.get(alloc, idx + 1),
        _ => Ok(None),
    }
}

impl Session {
    /// Takes the line before; while searching, searches backwards. If it is refused, nothing is changed.
    pub(super) fn step_back<H: LineEditorHost>(&mut self, host: &mut H) -> Result<(), AllocError>
        ensures host { host.new ≡ host.old }
        ensures ok { let lines = H.rules.lines (H.value host.old) in
            OnOk result (self.new
            ≡ on_state (λ s. history_step lines SearchDirection.Backwards (previous_step lines)
            s s.mode) self.old) }
        ensures err { OnErr result (self.new ≡ self.old) }
        ensures memory { let lines = H.rules.lines (H.value host.old) in let old = self.old.state in
            OnErr result (SearchesOr (HasLine lines (index_before lines old.history_index))
            lines SearchDirection.Backwards old.history_index old.mode) }
    {
        match self.mode {
            Mode::Searching { .. } => self.search(host, SearchDirection::Backwards),
            _ => self.history_previous(host),
        }
    }

    /// Takes the line after; while searching, searches forwards. If it is refused, nothing is changed.
    pub(super) fn step_forth<H: LineEditorHost>(&mut self, host: &mut H) -> Result<(), AllocError>
        ensures host { host.new ≡ host.old }
        ensures ok { let lines = H.rules.lines (H.value host.old) in
            OnOk result (self.new
            ≡ on_state (λ s. history_step lines SearchDirection.Forwards (next_step lines)
            s s.mode) self.old) }
        ensures err { OnErr result (self.new ≡ self.old) }
        ensures memory { let lines = H.rules.lines (H.value host.old) in let old = self.old.state in
            OnErr result (SearchesOr (TakesMemoryForth lines old.typed_line old.history_index)
            lines SearchDirection.Forwards old.history_index old.mode) }
    {
        match self.mode {
            Mode::Searching { .. } => self.search(host, SearchDirection::Forwards),
            _ => self.history_next(host),
        }
    }

    /// Takes the line before the index, or without one the last line, and keeps the typed one.
    #[tactic(auto, unfolding(crate::specs::Walk::previous_step))]
    fn history_previous<H: LineEditorHost>(&mut self, host: &mut H) -> Result<(), AllocError>
        ensures host { host.new ≡ host.old }
        ensures ok { OnOk result (self.new
            ≡ on_state (previous_step (H.rules.lines (H.value host.old))) self.old) }
        ensures err { OnErr result (self.new ≡ self.old) }
        ensures memory { let lines = H.rules.lines (H.value host.old) in
            OnErr result (HasLine lines (index_before lines self.old.state.history_index)) }
    {
        match self.history_index {
            Some(index) => self.take_from(host, index.saturating_sub(1)),
            None => self.take_last(host),
        }
    }

    /// Takes the line of an index, if there is one.
    fn take_from<H: LineEditorHost>(
        &mut self,
        host: &mut H,
        idx: HistoryIndex,
    ) -> Result<(), AllocError>
        ensures host { host.new ≡ host.old }
        ensures ok { let line = slice_get (H.rules.lines (H.value host.old)) idx in
            OnOk result (self.new ≡ on_state (λ s. with_line_if s idx line) self.old) }
        ensures err { OnErr result (self.new ≡ self.old) }
        ensures memory { OnErr result (idx < length (H.rules.lines (H.value host.old))) }
    {
        match line_at(host.history(), self.alloc, idx)? {
            Some(line) => self.take(idx, line.as_str()),
            None => Ok(()),
        }
    }

    /// Takes the last line, if there is one, and keeps the typed one.
    fn take_last<H: LineEditorHost>(&mut self, host: &mut H) -> Result<(), AllocError>
        ensures host { host.new ≡ host.old }
        ensures ok { let lines = H.rules.lines (H.value host.old) in
            OnOk result (self.new ≡ on_state
            (λ s. previous_of_typed lines s (last_index lines)) self.old) }
        ensures err { OnErr result (self.new ≡ self.old) }
        ensures memory { let lines = H.rules.lines (H.value host.old) in
            OnErr result (HasLine lines (last_index lines)) }
    {
        let Some(last) = host.history().last() else {
            return Ok(());
        };
        let typed = String::from_str(self.alloc, self.line.get_line())?;
        self.take_from(host, last)?;
        self.typed_line = Some(typed);
        Ok(())
    }

    /// Takes the line after the index, and leaves the history where there is none. Without an index it
    /// does nothing.
    #[tactic(auto, unfolding(crate::specs::Walk::next_step))]
    fn history_next<H: LineEditorHost>(&mut self, host: &mut H) -> Result<(), AllocError>
        ensures host { host.new ≡ host.old }
        ensures ok { OnOk result (self.new
            ≡ on_state (next_step (H.rules.lines (H.value host.old))) self.old) }
        ensures err { OnErr result (self.new ≡ self.old) }
        ensures memory { let old = self.old.state in
            OnErr result (TakesMemoryForth (H.rules.lines (H.value host.old))
            old.typed_line old.history_index) }
    {
        let Some(index) = self.history_index else {
            return Ok(());
        };
        match line_after(host.history(), self.alloc, index)? {
            Some(line) => self.take(index + 1, line.as_str()),
            None => self.restore(),
        }
    }

    /// Takes the line of an index, its cursor at the end.
    fn take(&mut self, idx: HistoryIndex, line: &str) -> Result<(), AllocError>
        ensures ok { OnOk result (self.new ≡ on_state (λ s. with_line_of s idx line.now) self.old) }
        ensures err { OnErr result (self.new ≡ self.old) }
    {
        self.line.set_line_and_cursor(line, line.len())?;
        self.history_index = Some(idx);
        Ok(())
    }

    /// Leaves the history: the typed line comes back, or the line is cleared. If it is refused, nothing is
    /// changed.
    fn restore(&mut self) -> Result<(), AllocError>
        ensures ok { OnOk result (self.new ≡ on_state with_typed_line self.old) }
        ensures err { OnErr result (self.new ≡ self.old) }
        ensures memory { OnErr result (KeepsText self.old.state.typed_line) }
    {
        match &self.typed_line {
            Some(kept) => {
                let kept = kept.as_str();
                self.line.set_line_and_cursor(kept, kept.len())?;
            }
            None => self.line.clear(),
        }
        self.typed_line = None;
        self.history_index = None;
        Ok(())
    }
}
