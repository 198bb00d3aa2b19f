//! The menu of a completion.

ghost use Rattle.std.specs.Prelude.{◌≡◌, ◌<◌, ◌≤◌, length, map, option_map, unwrap_or, IfOk};
ghost use Rattle.tw_host.specs.CandidateView.{candidate_view};
ghost use Rattle.tw_input.specs.EventView.{event_view};
ghost use Rattle.tw_key_parts.specs.EditView.{lent_action};
ghost use Rattle.tw_key_parts.specs.Ring.{is_same_cut};
ghost use Rattle.tw_prompt_host.specs.Menu.{chosen_at, chosen_of, is_menu_open, menu_after, menu_begun, turn_line, turn_view, turned};
ghost use Rattle.tw_prompt_host.specs.MenuKeys.{above, below, walked_to};

use crate::layout::{MenuStyle, row_and_page};
use crate::menu_keys::{MenuKey, menu_key};
use std::alloc::{AllocError, Global};
use std::marker::Model;
use tw_host::{Action, CompletionCandidate, copy_candidates};
use tw_input::InputEvent;
use tw_key_parts::is_same_cut;
use tw_line::LineEditBuffer;

/// The candidates of a completion that is over.
#[derive(Debug, Drop)]
pub struct FewCandidates(pub Vec<CompletionCandidate>);

impl Model for FewCandidates {
    ghost use Rattle.std.specs.Prelude.{List, map};
    ghost use Rattle.tw_host.specs.CandidateView.{CandidateView, candidate_view};

    ghost Value = { List CandidateView };

    ghost view = { λ few. map candidate_view few.0.items };
}

/// The candidates of a completion, one of which is in the line.
#[derive(Debug, Drop)]
pub struct OpenMenu {
    pub candidates: Vec<CompletionCandidate>,
    pub chosen: usize,
    /// The line before the completion.
    pub line: LineEditBuffer,
}

impl Model for OpenMenu {
    ghost use Rattle.std.specs.Prelude.{◌<◌, map, length};
    ghost use Rattle.tw_host.specs.CandidateView.{candidate_view};
    ghost use Rattle.tw_prompt_host.specs.MenuLayout.{Shown};

    ghost Value = { Shown };

    ghost view = { λ m. record { candidates = map candidate_view m.candidates.items; chosen = m.chosen; line = m.line } };

    ghost invariant = { λ m. m.chosen < length m.candidates.items };
}

impl OpenMenu {
    /// Returns a copy of the chosen candidate, by itself.
    #[tactic(auto, using(crate::proofs::LayoutLemmas::part_seen))]
    pub fn chosen_one(&self, alloc: Global) -> Result<Vec<CompletionCandidate>, AllocError>
        ensures { IfOk result (λ copies. map candidate_view copies.items ≡ chosen_of self.now) }
    {
        copy_candidates(alloc, &self.candidates[self.chosen..self.chosen + 1])
    }

    /// Chooses the candidate at an index, or the last one if there are fewer.
    fn choose(&mut self, index: usize)
        ensures { self.new ≡ chosen_at index self.old }
    {
        self.chosen = index.min(self.candidates.len() - 1);
    }

    /// Returns the index below the chosen candidate, or that of the top of the next column, in rows of `row` candidates.
    fn below(&self, row: usize) -> usize
        requires some { 0 < row }
        requires within { row ≤ length self.now.candidates }
        ensures { result ≡ below row self.now }
    {
        let next = self.chosen % row + 1;
        if self.chosen + row < self.candidates.len() {
            self.chosen + row
        } else if next < row {
            next
        } else {
            0
        }
    }

    /// Returns the index above the chosen candidate, or that of the end of the column before, in rows of `row`
    /// candidates.
    fn above(&self, row: usize) -> usize
        requires some { 0 < row }
        requires within { row ≤ length self.now.candidates }
        ensures { result ≡ above row self.now }
    {
        if self.chosen >= row {
            return self.chosen - row;
        }
        let column = if self.chosen == 0 {
            row - 1
        } else {
            self.chosen - 1
        };
        let last = self.candidates.len() - 1;
        last - (last - column) % row
    }

    /// Returns the index to which a key leads, if it walks through the candidates.
    fn walked_to(&self, style: MenuStyle, key: MenuKey) -> Option<usize>
        ensures { result ≡ walked_to style key self.now }
    {
        let count = self.candidates.len();
        let (row, page) = row_and_page(style, &self.candidates);
        match key {
            MenuKey::Next => Some((self.chosen + 1) % count),
            MenuKey::Previous if self.chosen == 0 => Some(count - 1),
            MenuKey::Previous => Some(self.chosen - 1),
            MenuKey::Below => Some(self.below(row)),
            MenuKey::Above => Some(self.above(row)),
            MenuKey::PageDown => Some(self.chosen + page),
            MenuKey::PageUp => Some(self.chosen.saturating_sub(page)),
            MenuKey::Takes | MenuKey::GivesUp => None,
        }
    }
}

/// The state of the menu.
#[derive(Debug, Drop)]
pub enum Menu {
    /// No completion.
    Closed,
    /// A completion whose candidates are not known.
    Unseen,
    /// A completion with these candidates, fewer than two, that is over.
    Few(FewCandidates),
    /// A completion with two candidates or more.
    Open(OpenMenu),
}

/// Where an event leads a menu.
#[derive(Debug, Drop)]
pub enum Turn {
    /// Chooses the candidate of an open menu at this index, or the last one.
    Step(usize),
    /// Begins a completion.
    Begins(Menu),
}

impl Menu {
    /// Returns true if it is open.
    pub fn is_open(&self) -> bool
        ensures { result ≡ is_menu_open self.now }
    {
        matches!(self, Menu::Open(_))
    }

    /// Returns the menu at the beginning of a completion of a line.
    pub fn begun(candidates: Vec<CompletionCandidate>, line: LineEditBuffer) -> Self
        ensures { result ≡ menu_begun (map candidate_view candidates.items) line }
    {
        if candidates.len() > 1 {
            Menu::Open(OpenMenu {
                candidates,
                chosen: 0,
                line,
            })
        } else {
            Menu::Few(FewCandidates(candidates))
        }
    }

    /// Returns where an event leads a menu: its keys walk through an open one, or else the one begins that is given.
    pub fn turn(&self, style: MenuStyle, event: &InputEvent, begun: Option<Menu>) -> Option<Turn>
        ensures { option_map (turn_view self.now) result
            ≡ turned style begun (event_view event.now) self.now }
    {
        match self {
            Menu::Open(menu) => {
                let to = menu.walked_to(style, menu_key(event)?)?;
                Some(Turn::Step(to))
            }
            _ => begun.map(|menu| Turn::Begins(menu)),
        }
    }

    /// Returns a copy of the line on which the editor completes when the menu turns.
    pub fn line_of(
        &self,
        alloc: Global,
        turn: Option<&Turn>,
    ) -> Result<Option<LineEditBuffer>, AllocError>
        ensures { IfOk result (λ line. line
            ≡ turn_line (option_map (λ turn. turn_view self.now turn.now) turn.entry)) }
    {
        match (turn, self) {
            (Some(Turn::Step(_)), Menu::Open(menu)) | (Some(Turn::Begins(Menu::Open(menu))), _) => {
                Ok(Some(menu.line.try_clone(alloc)?))
            }
            _ => Ok(None),
        }
    }

    /// Follows an event, which turns the menu or has an action that leads from one line to another.
    pub fn follow(
        &mut self,
        turn: Option<Turn>,
        before: &LineEditBuffer,
        after: &LineEditBuffer,
        action: Option<&Action>,
    )
        ensures { self.new ≡ unwrap_or (option_map (turn_view self.old) turn)
            (menu_after (is_same_cut before.now after.now) (lent_action action.entry) self.old) }
    {
        match (turn, action) {
            (Some(Turn::Step(index)), _) => {
                if let Menu::Open(menu) = self {
                    menu.choose(index);
                }
            }
            (Some(Turn::Begins(menu)), _) => *self = menu,
            (None, Some(Action::Complete)) => *self = Menu::Unseen,
            (None, Some(Action::NoAction | Action::Repaint) | None) => {
                if self.is_open() && !is_same_cut(before, after) {
                    *self = Menu::Closed;
                }
            }
            (None, Some(_)) => *self = Menu::Closed,
        }
    }
}
