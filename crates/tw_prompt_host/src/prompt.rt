//! The prompt, and the order in which its parts answer.

ghost use Rattle.std.specs.Prelude.{◌≡◌, ◌&&◌, ◌||◌, IfOk, OnErr, OnOk, IsCharBoundary, None, if◌then◌else◌, map, not, option_map, refl};
ghost use Rattle.tw_host.specs.ActionView.{action_view};
ghost use Rattle.tw_host.specs.CandidateView.{candidate_view};
ghost use Rattle.tw_host.specs.ElementView.{element_view};
ghost use Rattle.tw_host.specs.HostRules.{or_default};
ghost use Rattle.tw_host.specs.KeyTable.{action_of};
ghost use Rattle.tw_host.specs.PlainAnswers.{all_overrides, no_plain_left};
ghost use Rattle.tw_hosts.specs.Settling.{screen_view};
ghost use Rattle.tw_input.specs.EventView.{event_view};
ghost use Rattle.tw_line.specs.Cut.{cut_at};
ghost use Rattle.tw_key_parts.specs.EditView.{edit_view, lent_action};
ghost use Rattle.tw_key_parts.specs.SearchWatch.{has_lines};
ghost use Rattle.tw_prompt_host.specs.Going.{going_at_rest, event_line};
ghost use Rattle.tw_prompt_host.specs.FailingSearch.{fails_after};
ghost use Rattle.tw_prompt_host.specs.Menu.{turn_view};
ghost use Rattle.tw_prompt_host.specs.PromptRules.{Prompted, accepting_at, after_line, begun_at, edit_at, found, judged, line_edit, prompt_rules};
ghost use Rattle.tw_prompt_host.specs.Rows.{rows_view};
ghost use Rattle.tw_prompt_host.specs.Verdicts.{verdict_on};

use crate::after_line::after_line_on;
use crate::answers::{Verdict, answered, chosen, done, failing_by, judged};
use crate::failing::{failing_text, is_failing, pattern_after};
use crate::going::{Going, ends_search};
use crate::hint::{Hints, hint_row, history_hint, is_taking, part_taken};
use crate::layout::{MenuStyle, menu_page};
use crate::menu::{Menu, Turn};
use crate::menu_keys::{edit_in_menu, menu_key};
use crate::rows::Rows;
use crate::validator::{Validation, Validator};
use std::alloc::{AllocError, Global};
use tw_host::{
    Action, CompletionCandidate, LineEditorHost, OutputElement, Overrides, copy_candidates,
    default_action, plain_element,
};
use tw_hosts::{ContextCompleter, Listing, PromptScreen, beginning_first, complete_in_context};
use tw_input::InputEvent;
use tw_key_parts::{Asked, Edit, KeyPart, Step, follow_event, is_filled, searches_after};
use tw_line::{History, LentLines, LineEditBuffer, Movement};
use tw_surface::CellAttributes;

/// A prompt with the comforts of readline. Each event goes to the application's host first, then a hint may be taken,
/// then the parts with keys are asked, and at last the key table. Accepting a line that is not whole does nothing, and
/// so may accepting the last match of a search that fails. Every part then follows the action that is done in the end,
/// whoever answered it.
#[derive(Debug, Drop)]
pub struct PromptHost<H, L, K, V> {
    /// The application's host: how the prompt and the line are shown, candidates if no completer applies, and keys of
    /// its own. Its history is not used.
    pub host: H,
    /// The history.
    pub history: L,
    /// Completers by context, asked before the host.
    pub completers: Vec<ContextCompleter>,
    /// Listings of directories for file names. Set them between lines.
    pub listings: Vec<Listing>,
    /// The parts with keys: one part, or a pair of parts.
    pub keys: K,
    /// How the rest of the newest line that begins with the line is shown.
    pub hints: Hints,
    /// Says after the line that a search fails, if its pattern stands in no line, and accepts no line then.
    pub stops_failing_searches: bool,
    /// Decides whether a line may be accepted.
    pub validator: V,
    /// The style of the menu of completions.
    pub menu: MenuStyle,
    /// The screen and the prompt, for the column of the cursor.
    pub screen: PromptScreen,
    /// How a line of several rows is shown. If it is shown in rows, accepting a line that is not whole begins a row.
    /// Put `RowKeys` before other parts then.
    pub rows: Rows,
    /// The state of the current line.
    pub going: Going,
}

impl<H: LineEditorHost, L: History + LentLines, K: KeyPart, V: Validator> PromptHost<H, L, K, V> {
    /// Resets the state of the current line. Call it before each line: the last one may have been left in a search or a
    /// completion.
    pub fn begin_line(&mut self)
        ensures { ⟦<PromptHost<H, L, K, V> as LineEditorHost>⟧.value self.new
            ≡ record (⟦<PromptHost<H, L, K, V> as LineEditorHost>⟧.value self.old) {
              keys = K.keys.leaves (K.state self.old.keys);
              going = going_at_rest;
            } }
    {
        self.keys.leave_line();
        self.going = Going::new();
    }

    /// Returns true if the editor searches, and goes on after an action for a pattern that no line of the history
    /// contains.
    fn fails_after(
        &self,
        alloc: Global,
        action: Option<&Action>,
        line: &LineEditBuffer,
    ) -> Result<bool, AllocError>
        ensures { IfOk result (λ fails. fails ≡ (self.now.stops_failing_searches
            && fails_after (L.History.lines self.now.history) self.now.going.searching
            (lent_action action.entry) line.now)) }
    {
        let searching = self.going.searching;
        if !self.stops_failing_searches
            || !searching
            || !searches_after(is_filled(&self.history), action, searching)
        {
            return Ok(false);
        }
        let after = pattern_after(alloc, action, line)?;
        is_failing(alloc, &self.history, after.get_line())
    }

    /// Returns what becomes of accepting a line, or during a search of accepting the line that was found.
    fn accepting(&self, alloc: Global, line: &str) -> Result<Verdict, AllocError>
        ensures { let v = ⟦<PromptHost<H, L, K, V> as LineEditorHost>⟧.value self.now in
            IfOk result (λ verdict. verdict ≡ accepting_at K.keys H.rules v line.now) }
    {
        if self.going.searching {
            let fails = self.stops_failing_searches && is_failing(alloc, &self.history, line)?;
            return Ok(if fails {
                Verdict::Fails
            } else {
                Verdict::Passes
            });
        }
        Ok(match self.validator.validate(alloc, line)? {
            Validation::Valid => Verdict::Passes,
            Validation::Incomplete(_) if self.rows.are_shown() => Verdict::Opens,
            Validation::Incomplete(_) | Validation::Invalid(_) => Verdict::Keeps,
        })
    }

    /// Returns the edit of an event in the line as it is: a hint that is shown is taken, or that of the parts.
    fn line_edit(
        &self,
        alloc: Global,
        event: &InputEvent,
        default: Option<&Action>,
        line: &LineEditBuffer,
    ) -> Result<Option<Edit<Option<K::Note>>>, AllocError>
        requires { lent_action default ≡ action_of (event_view event.now) }
        ensures { let v = ⟦<PromptHost<H, L, K, V> as LineEditorHost>⟧.value self.now in
            IfOk result (λ edit. option_map (edit_view (option_map K.kept)) edit
            ≡ line_edit K.keys H.rules v (event_view event.now) line.now) }
    {
        if !matches!(self.hints, Hints::Off)
            && !self.going.hides_hint()
            && is_taking(default, line)
            && let Some(rest) = history_hint(&self.history, line.get_line())
        {
            let text = String::from_str(alloc, part_taken(default, rest))?;
            return Ok(Some(Edit {
                line: Some(line.try_clone(alloc)?),
                action: Action::InsertText(1, text),
                note: None,
            }));
        }
        let asked = Asked {
            event,
            searching: self.going.searching,
            history: &self.history,
            line,
        };
        let edit = self.keys.edit(alloc, &asked)?;
        Ok(edit.map(|Edit { line, action, note }| Edit {
            line,
            action,
            note: Some(note),
        }))
    }

    /// Returns the edit of an event. One that ends a search leaves it, and one that cancels has the line from before
    /// it. An open menu has its keys before all others.
    fn edit_at(
        &self,
        alloc: Global,
        event: &InputEvent,
        default: Option<&Action>,
        line: &LineEditBuffer,
    ) -> Result<Option<Edit<Option<K::Note>>>, AllocError>
        requires { lent_action default ≡ action_of (event_view event.now) }
        ensures { let v = ⟦<PromptHost<H, L, K, V> as LineEditorHost>⟧.value self.now in
            IfOk result (λ edit. option_map (edit_view (option_map K.kept)) edit
            ≡ edit_at K.keys H.rules v (event_view event.now) line.now) }
    {
        if self.going.searching && ends_search(event) {
            return Ok(Some(Edit {
                line: None,
                action: Action::Move(Movement::None),
                note: None,
            }));
        }
        if self.going.searching && matches!(default, Some(Action::Cancel)) {
            let line = match &self.going.before_search {
                Some(before) => Some(before.try_clone(alloc)?),
                None => None,
            };
            return Ok(Some(Edit {
                line,
                action: Action::Cancel,
                note: None,
            }));
        }
        if !self.going.searching
            && let Menu::Open(menu) = &self.going.menu
            && let Some(key) = menu_key(event)
        {
            return edit_in_menu::<K>(alloc, key, menu);
        }
        self.line_edit(alloc, event, default, line)
    }

    /// Completes a line, whatever the menu has.
    fn found(
        &self,
        alloc: Global,
        line: &str,
        cursor: usize,
    ) -> Result<Vec<CompletionCandidate>, AllocError>
        requires { IsCharBoundary line.now cursor }
        ensures { let v = ⟦<PromptHost<H, L, K, V> as LineEditorHost>⟧.value self.now in
            IfOk result (λ candidates. map candidate_view candidates.items
            ≡ found K.keys H.rules v (cut_at line.now cursor)) }
    {
        let completed = complete_in_context(
            alloc,
            self.completers.as_slice(),
            self.listings.as_slice(),
            line,
            cursor,
        )?;
        let candidates = match completed {
            Some(candidates) => candidates,
            None => self.host.complete(alloc, line, cursor)?,
        };
        beginning_first(alloc, candidates)
    }

    /// Returns the menu with which an action begins a completion of a line, if it does.
    fn begun(
        &self,
        alloc: Global,
        action: Option<&Action>,
        line: &LineEditBuffer,
    ) -> Result<Option<Menu>, AllocError>
        ensures { let v = ⟦<PromptHost<H, L, K, V> as LineEditorHost>⟧.value self.now in
            IfOk result (λ begun. begun
            ≡ begun_at K.keys H.rules v (lent_action action.entry) line.now) }
    {
        let is_still = matches!(self.going.menu, Menu::Closed | Menu::Few(_));
        let completes = matches!(action, Some(Action::Complete));
        if self.going.searching || !is_still || !completes {
            return Ok(None);
        }
        let candidates = self.found(alloc, line.get_line(), line.get_cursor())?;
        Ok(Some(Menu::begun(candidates, line.try_clone(alloc)?)))
    }

    /// Asks the application's host about an event at a line, which `editor` holds unless the line comes back.
    fn ask_host(
        &mut self,
        alloc: Global,
        event: &InputEvent,
        line: &LineEditBuffer,
        editor: &mut LineEditBuffer,
    ) -> Result<Option<Action>, AllocError>
        requires { line.now ≡ event_line self.old.going editor.old }
        ensures answer { let v = ⟦<PromptHost<H, L, K, V> as LineEditorHost>⟧.value self.old in
            let r = H.rules.resolve v.host (event_view event.now) line.now in
            IfOk result (λ action. (⟦<PromptHost<H, L, K, V> as LineEditorHost>⟧.value self.new
            ≡ record v { host = r.value }) × (editor.new ≡ r.cut)
            × (option_map action_view action ≡ r.action)) }
        ensures keys { self.new.keys ≡ self.old.keys }
        ensures going { self.new.going ≡ self.old.going }
        ensures err { OnErr result ((editor.new ≡ editor.old)
            × (⟦<PromptHost<H, L, K, V> as LineEditorHost>⟧.value self.new
            ≡ ⟦<PromptHost<H, L, K, V> as LineEditorHost>⟧.value self.old)) }
    {
        if self.going.comes_back.is_none() {
            return self.host.resolve_action(alloc, event, editor);
        }
        let mut line = line.try_clone(alloc)?;
        let action = self.host.resolve_action(alloc, event, &mut line)?;
        *editor = line;
        Ok(action)
    }

    /// Does an answer to an event, or what becomes of it in its place, and lets every part follow. `accepting` is what
    /// becomes of accepting the line. `fails` is true if the pattern of a search fails after the event. Returns the
    /// action.
    fn settle(
        &mut self,
        alloc: Global,
        event: &InputEvent,
        default: Option<Action>,
        before: LineEditBuffer,
        after: &LineEditBuffer,
        answer: (Option<Action>, Option<K::Note>, Option<Turn>),
        accepting: Verdict,
        fails: bool,
    ) -> Option<Action>
        requires default { option_map action_view default ≡ action_of (event_view event.now) }
        requires ready { K.is_ready self.old.keys before }
        ensures { let v = ⟦<PromptHost<H, L, K, V> as LineEditorHost>⟧.value self.old in
            let action = option_map action_view answer.0 in
            let turn = option_map (turn_view self.old.going.menu) answer.2 in
            let lines = v.going.searching || has_lines v.lines in
            let verdict = verdict_on accepting lines (or_default action (event_view event.now)) in
            judged K.keys H.rules v (event_view event.now) before v.host
            (record { cut = after.now; action = action; kept = option_map K.kept answer.1 })
            turn verdict fails
            ≡ record {
              value = ⟦<PromptHost<H, L, K, V> as LineEditorHost>⟧.value self.new;
              cut = after.now;
              action = option_map action_view result;
            } }
    {
        let (action, note, turn) = answer;
        let lines = is_filled(&self.history);
        let can_search = self.going.can_search(lines);
        let (verdict, action) = judged(accepting, can_search, event, action, default.as_ref());
        let done = done(event, action.as_ref(), default.as_ref());
        let step = Step {
            event,
            searching: self.going.searching,
            before: &before,
            after,
            action: done,
        };
        follow_event(&mut self.keys, alloc, note, &step);
        self.going
            .follow(lines, event, before, after, done, verdict, fails, turn);
        self.menu.resize(event);
        self.screen.resize(event);
        action
    }

    /// Returns what stands after the line: the message that a search fails, or a hint.
    fn after_line(
        &self,
        alloc: Global,
        line: &str,
        cursor: usize,
    ) -> Result<Vec<OutputElement>, AllocError>
        ensures { let v = ⟦<PromptHost<H, L, K, V> as LineEditorHost>⟧.value self.now in
            IfOk result (λ elements. map element_view elements.items
            ≡ after_line K.keys H.rules v (cut_at line.now cursor)) }
    {
        if self.going.fails {
            let style = CellAttributes::default();
            let text = failing_text(self.going.searching);
            return after_line_on(alloc, &self.screen, &self.rows, line, style, text);
        }
        if !self.going.hides_hint()
            && !self.going.over
            && cursor == line.len()
            && let Hints::After(style) = self.hints
            && let Some(rest) = history_hint(&self.history, line)
        {
            return after_line_on(alloc, &self.screen, &self.rows, line, style, rest);
        }
        Ok(Vec::new(alloc))
    }
}

impl<H: LineEditorHost, L: History + LentLines, K: KeyPart, V: Validator> LineEditorHost
    for PromptHost<H, L, K, V> {
    type Hist = L;

    ghost Value = { Prompted H.Value K.State };

    ghost value = { λ it. record {
      host = H.value it.host;
      lines = L.History.lines it.history;
      lent = L.LentLines.lines it.history;
      completers = it.completers.items;
      listings = it.listings.items;
      keys = K.state it.keys;
      hints = it.hints;
      stops_failing_searches = it.stops_failing_searches;
      judges = V.judges it.validator;
      style = it.menu;
      screen = screen_view it.screen;
      rows = rows_view it.rows;
      going = it.going;
    } };

    ghost rules = { prompt_rules K.keys H.rules };

    ghost history_of = { λ it. it.history };

    ghost with_history = { λ it history. record it { history = history } };

    ghost OVERRIDES = { all_overrides };

    const OVERRIDES: Overrides = Overrides::ALL;

    fn history(&mut self) -> &mut L {
        &mut self.history
    }

    fn render_prompt(&self, alloc: Global, prompt: &str) -> Result<Vec<OutputElement>, AllocError> {
        self.host.render_prompt(alloc, prompt)
    }

    fn render_preview(&self, alloc: Global, line: &str) -> Result<Vec<OutputElement>, AllocError> {
        if self.going.kept
            && let Validation::Incomplete(text) | Validation::Invalid(text) = self
                .validator
                .validate(alloc, line)?
        {
            return plain_element(alloc, text.as_str());
        }
        if let Menu::Open(menu) = &self.going.menu {
            return menu_page(alloc, self.menu, &menu.candidates, menu.chosen);
        }
        let elements = self.host.render_preview(alloc, line)?;
        if !elements.is_empty() {
            return Ok(elements);
        }
        if self.hints == Hints::Under
            && let Some(rest) = history_hint(&self.history, line)
        {
            let row = hint_row(alloc, rest)?;
            return plain_element(alloc, row.as_str());
        }
        Ok(elements)
    }

    fn highlight_line(
        &self,
        alloc: Global,
        line: &str,
        cursor_position: usize,
    ) -> Result<(Vec<OutputElement>, usize), AllocError> {
        let (elements, _) = self.host.highlight_line(alloc, line, cursor_position)?;
        let (mut shown, column) = self
            .rows
            .show(alloc, &self.screen, elements, line, cursor_position)?;
        let mut more = self.after_line(alloc, line, cursor_position)?;
        shown.append(&mut more)?;
        Ok((shown, column))
    }

    fn complete(
        &self,
        alloc: Global,
        line: &str,
        cursor_position: usize,
    ) -> Result<Vec<CompletionCandidate>, AllocError> {
        match &self.going.menu {
            Menu::Open(menu) => menu.chosen_one(alloc),
            Menu::Few(candidates) => copy_candidates(alloc, &candidates.0),
            _ => self.found(alloc, line, cursor_position),
        }
    }

    fn resolve_action(
        &mut self,
        alloc: Global,
        event: &InputEvent,
        editor: &mut LineEditBuffer,
    ) -> Result<Option<Action>, AllocError> {
        let default = default_action(alloc, event)?;
        let line = self.going.comes_back.as_ref().unwrap_or(editor);
        let before = line.try_clone(alloc)?;
        let accepting = self.accepting(alloc, before.get_line())?;
        let key = default.as_ref();
        let edit = self.edit_at(alloc, event, key, &before)?;
        let fails = self.fails_after(alloc, chosen::<K>(event, &edit, key), &before)?;
        let begun = self.begun(alloc, key, &before)?;
        let turn = self.going.menu.turn(self.menu, event, begun);
        let original = self.going.menu.line_of(alloc, turn.as_ref())?;
        self.keys.prepare(alloc, &before)?;
        let own = self.ask_host(alloc, event, &before, editor)?;
        let fails = failing_by(&own, accepting, fails);
        let answer = answered::<K>(&self.going.menu, own, edit, original, turn, editor);
        Ok(self.settle(
            alloc, event, default, before, editor, answer, accepting, fails,
        ))
    }

    ghost plain_answers = { no_plain_left };

    ghost history_put_back = { λ it. refl };

    ghost held_put = { λ it history. refl };

    ghost held_lines = { λ it. refl };
}
