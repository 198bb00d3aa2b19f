//! The state of one line.

ghost use Rattle.std.specs.Prelude.{◌≡◌, ◌||◌, option_map};
ghost use Rattle.tw_input.specs.EventView.{event_view};
ghost use Rattle.tw_key_parts.specs.EditView.{lent_action};
ghost use Rattle.tw_key_parts.specs.SearchWatch.{searches_after};
ghost use Rattle.tw_prompt_host.specs.Going.{going_at_rest, before_search_after, comes_back_after, ends_search, gives_up, going_after, hides_hint};
ghost use Rattle.tw_prompt_host.specs.Menu.{turn_view};

use crate::answers::Verdict;
use crate::menu::{Menu, Turn};
use tw_host::Action;
use tw_input::{InputEvent, KeyCode, KeyEvent, Modifiers};
use tw_key_parts::{is_key, searches_after};
use tw_line::LineEditBuffer;

/// Leaves a search with the line that it found.
const ESCAPE: KeyEvent = KeyEvent {
    key: KeyCode::Escape,
    modifiers: Modifiers::NONE,
};

/// The state of the current line, except for that of the parts with keys.
#[derive(Debug, Drop)]
pub struct Going {
    /// True while the editor searches.
    pub(crate) searching: bool,
    /// True if the prompt says that a search finds no line.
    pub(crate) fails: bool,
    /// The line before the search, while the editor searches.
    pub(crate) before_search: Option<LineEditBuffer>,
    /// The line that comes back with the next event, after a search that was given up.
    pub(crate) comes_back: Option<LineEditBuffer>,
    /// True once the line was not accepted, up to the next action.
    pub(crate) kept: bool,
    /// True once an action ended the line.
    pub(crate) over: bool,
    /// The menu.
    pub(crate) menu: Menu,
}

/// Returns true for the keys that give a search up, Ctrl-G and Ctrl-D.
pub fn gives_up(event: &InputEvent) -> bool
    ensures { result ≡ gives_up (event_view event.now) }
{
    let InputEvent::Key(press) = event else {
        return false;
    };
    matches!(
        (press.modifiers, press.key),
        (Modifiers::CTRL, KeyCode::Char('G' | 'D'))
    )
}

/// Returns true for the keys that leave a search: those that give it up, and Escape.
pub fn ends_search(event: &InputEvent) -> bool
    ensures { result ≡ ends_search (event_view event.now) }
{
    gives_up(event) || is_key(ESCAPE, event)
}

impl Going {
    /// Returns true if no hint is shown: the editor searches, the line was kept, or the menu is open.
    pub fn hides_hint(&self) -> bool
        ensures { result ≡ hides_hint self.now }
    {
        self.searching || self.kept || self.menu.is_open()
    }

    /// Returns true if the editor searches, or has lines to search.
    pub fn can_search(&self, lines: bool) -> bool
        ensures { result ≡ (self.now.searching || lines) }
    {
        self.searching || lines
    }

    /// Creates the state before a line.
    pub fn new() -> Self
        ensures { result ≡ going_at_rest }
    {
        Going {
            searching: false,
            fails: false,
            before_search: None,
            comes_back: None,
            kept: false,
            over: false,
            menu: Menu::Closed,
        }
    }

    /// Follows a search, which goes on after an event or not.
    fn follow_search(&mut self, event: &InputEvent, searches: bool, line: LineEditBuffer)
        ensures { self.new ≡ record self.old {
          searching = searches;
          before_search = before_search_after self.old.searching searches line self.old.before_search;
          comes_back = comes_back_after (gives_up (event_view event.now)) searches
              self.old.before_search;
        } }
    {
        let before = self.before_search.take();
        self.comes_back = None;
        match (self.searching, searches) {
            (false, true) => self.before_search = Some(line),
            (true, true) => self.before_search = before,
            (_, false) => {
                if gives_up(event) {
                    self.comes_back = before;
                }
            }
        }
        self.searching = searches;
    }

    /// Follows an event, which leads from the line before to the one after. `verdict` is what became of its action, and
    /// `fails` is true if the pattern of a search fails after it.
    pub(crate) fn follow(
        &mut self,
        lines: bool,
        event: &InputEvent,
        before: LineEditBuffer,
        after: &LineEditBuffer,
        action: Option<&Action>,
        verdict: Verdict,
        fails: bool,
        turn: Option<Turn>,
    )
        ensures { self.new ≡ going_after lines (record {
          event = event_view event.now;
          before = before;
          after = after.now;
          action = lent_action action.entry;
          verdict = verdict;
          fails = fails;
          turn = option_map (turn_view self.old.menu) turn;
        }) self.old }
    {
        self.menu.follow(turn, &before, after, action);
        self.kept = verdict == Verdict::Keeps || (self.kept && action.is_none());
        self.over = action.is_some_and(Action::ends_line);
        let searches = searches_after(lines, action, self.searching);
        let still = if searches {
            fails
        } else {
            self.fails && action.is_none()
        };
        self.fails = verdict == Verdict::Fails || still;
        self.follow_search(event, searches, before);
    }
}
