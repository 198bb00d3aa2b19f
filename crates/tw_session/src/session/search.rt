//! Incremental search of the history.

ghost use Rattle.std.specs.Prelude.{◌≡◌, ◌<◌, length, IfOk, OnOk, OnErr, option_map};
ghost use Rattle.tw_session.specs.Memory.{HasLine, SearchesOr, SeeksAgain};
ghost use Rattle.tw_line.specs.NearestMatch.{nearest_match, last_index};
ghost use Rattle.tw_session.specs.Search.{search_left, searched_again, search_step, nearest_match_from, begun_search};
ghost use Rattle.tw_session.specs.SessionView.{on_state, found_view};

use super::{Mode, Session};
use std::alloc::{AllocError, Global};
use std::mem;
use tw_host::LineEditorHost;
use tw_line::{History, HistoryIndex, LineEditBuffer, SearchDirection, SearchStyle};

/// A line that was found, copied, with its cursor where the pattern stands.
#[derive(Debug, Drop)]
pub struct Found {
    matching: LineEditBuffer,
    idx: HistoryIndex,
}

/// Returns the nearest line from an index on that contains the pattern. If no line has the index, the history is not
/// asked.
fn find<H: LineEditorHost>(
    host: &mut H,
    alloc: Global,
    start: HistoryIndex,
    style: SearchStyle,
    direction: SearchDirection,
    pattern: &str,
) -> Result<Option<Found>, AllocError>
    ensures found { let lines = H.rules.lines (H.value host.old) in
        IfOk result (λ found. option_map found_view found
        ≡ nearest_match lines start direction pattern.now) }
    ensures memory { OnErr result (start < length (H.rules.lines (H.value host.old))) }
    ensures host { host.new ≡ host.old }
{
    let history = host.history();
    match history.last() {
        Some(last) if start <= last => {}
        _ => return Ok(None),
    }
    match history.search(alloc, start, style, direction, pattern)? {
        Some(found) => {
            let matching = LineEditBuffer::new(alloc, found.line.as_str(), found.cursor)?;
            Ok(Some(Found {
                matching,
                idx: found.idx,
            }))
        }
        None => Ok(None),
    }
}

/// Returns the nearest line from the last one on that contains the pattern.
fn find_from_last<H: LineEditorHost>(
    host: &mut H,
    alloc: Global,
    style: SearchStyle,
    direction: SearchDirection,
    pattern: &str,
) -> Result<Option<Found>, AllocError>
    ensures found { let lines = H.rules.lines (H.value host.old) in
        IfOk result (λ found. option_map found_view found
        ≡ nearest_match_from lines (last_index lines) direction pattern.now) }
    ensures memory { let lines = H.rules.lines (H.value host.old) in
        OnErr result (HasLine lines (last_index lines)) }
    ensures host { host.new ≡ host.old }
{
    match host.history().last() {
        Some(last) => find(host, alloc, last, style, direction, pattern),
        None => Ok(None),
    }
}

impl Session {
    /// Leaves a search: the matching line comes in.
    pub(super) fn leave_search(&mut self)
        ensures { self.new ≡ on_state search_left self.old }
    {
        match mem::replace(&mut self.mode, Mode::Editing) {
            Mode::Searching { matching, .. } => self.line = matching,
            mode => self.mode = mode,
        }
    }

    /// Makes this line the pattern and applies it from the last line on, while searching. If it is refused,
    /// nothing is changed.
    #[tactic(auto, unfolding(crate::specs::Search::searched_again))]
    pub(super) fn search_again<H: LineEditorHost>(
        &mut self,
        host: &mut H,
        line: LineEditBuffer,
    ) -> Result<(), AllocError>
        ensures host { host.new ≡ host.old }
        ensures ok { let lines = H.rules.lines (H.value host.old) in
            OnOk result (self.new ≡ on_state
            (λ s. searched_again lines (record s { cut = line })) self.old) }
        ensures err { OnErr result (self.new ≡ self.old) }
        ensures memory { let lines = H.rules.lines (H.value host.old) in
            OnErr result (SeeksAgain lines self.old.state.mode) }
    {
        if let Mode::Searching {
            style,
            direction,
            matching,
        } = &mut self.mode
        {
            match find_from_last(host, self.alloc, *style, *direction, line.get_line())? {
                Some(found) => {
                    *matching = found.matching;
                    self.history_index = Some(found.idx);
                }
                None => self.history_index = None,
            }
        }
        self.line = line;
        Ok(())
    }

    /// Begins a search, or goes on with it beside the index. If it is refused, nothing is changed.
    #[tactic(auto, unfolding(crate::specs::Search::search_step))]
    pub(super) fn search<H: LineEditorHost>(
        &mut self,
        host: &mut H,
        direction: SearchDirection,
    ) -> Result<(), AllocError>
        ensures host { host.new ≡ host.old }
        ensures ok { OnOk result (self.new
            ≡ on_state (search_step (H.rules.lines (H.value host.old)) direction) self.old) }
        ensures err { OnErr result (self.new ≡ self.old) }
        ensures memory { let lines = H.rules.lines (H.value host.old) in let old = self.old.state in
            OnErr result (SearchesOr (HasLine lines (last_index lines))
            lines direction old.history_index old.mode) }
    {
        match &mut self.mode {
            Mode::Searching {
                style,
                direction: before,
                matching,
            } => {
                let start = match self.history_index {
                    Some(index) => direction.next(index),
                    None => host.history().last(),
                };
                let Some(start) = start else {
                    return Ok(());
                };
                let pattern = self.line.get_line();
                if let Some(found) = find(host, self.alloc, start, *style, direction, pattern)? {
                    *matching = found.matching;
                    self.history_index = Some(found.idx);
                }
                *before = direction;
                Ok(())
            }
            _ => self.begin_search(host, direction),
        }
    }

    /// Begins a search with the empty pattern at the last line; with an empty history it clears the line alone.
    fn begin_search<H: LineEditorHost>(
        &mut self,
        host: &mut H,
        direction: SearchDirection,
    ) -> Result<(), AllocError>
        ensures host { host.new ≡ host.old }
        ensures ok { OnOk result (self.new
            ≡ on_state (begun_search (H.rules.lines (H.value host.old)) direction) self.old) }
        ensures err { OnErr result (self.new ≡ self.old) }
        ensures memory { let lines = H.rules.lines (H.value host.old) in
            OnErr result (HasLine lines (last_index lines)) }
    {
        let style = SearchStyle::Substring;
        let last = host.history().last();
        let found = find_from_last(host, self.alloc, style, direction, "")?;
        self.line.clear();
        self.history_index = None;
        if last.is_some() {
            let mut matching = LineEditBuffer::empty(self.alloc);
            if let Some(found) = found {
                matching = found.matching;
                self.history_index = Some(found.idx);
            }
            self.mode = Mode::Searching {
                style,
                direction,
                matching,
            };
        }
        Ok(())
    }
}
