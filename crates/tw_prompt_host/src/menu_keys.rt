//! The keys of an open menu.

ghost use Rattle.std.specs.Prelude.{◌≡◌, IfOk, option_map};
ghost use Rattle.tw_input.specs.EventView.{event_view};
ghost use Rattle.tw_key_parts.specs.EditView.{edit_view};
ghost use Rattle.tw_prompt_host.specs.MenuKeys.{edit_in_menu, menu_key};

use crate::menu::OpenMenu;
use std::alloc::{AllocError, Global};
use tw_host::Action;
use tw_input::{InputEvent, KeyCode, Modifiers};
use tw_key_parts::{Edit, KeyPart};
use tw_line::Movement;

/// What a key does in an open menu.
#[derive(Clone, Copy, Debug, PartialEq, Eq)]
pub enum MenuKey {
    /// Chooses the next candidate, after the last one the first.
    Next,
    /// Chooses the candidate before, before the first one the last.
    Previous,
    /// Goes down a column, and on to the next one.
    Below,
    /// Goes up a column, and back to the one before.
    Above,
    /// Goes a page on, at most to the last candidate.
    PageDown,
    /// Goes a page back, at most to the first candidate.
    PageUp,
    /// Takes the candidate.
    Takes,
    /// Gives the completion up.
    GivesUp,
}

/// Returns what an event does in an open menu, if it is one of its keys.
pub fn menu_key(event: &InputEvent) -> Option<MenuKey>
    ensures { result ≡ menu_key (event_view event.now) }
{
    let InputEvent::Key(press) = event else {
        return None;
    };
    match (press.modifiers, press.key) {
        (Modifiers::NONE, KeyCode::Tab | KeyCode::RightArrow | KeyCode::ApplicationRightArrow) => {
            Some(MenuKey::Next)
        }
        (Modifiers::SHIFT, KeyCode::Tab)
        | (Modifiers::NONE, KeyCode::LeftArrow | KeyCode::ApplicationLeftArrow) => {
            Some(MenuKey::Previous)
        }
        (Modifiers::NONE, KeyCode::DownArrow | KeyCode::ApplicationDownArrow) => {
            Some(MenuKey::Below)
        }
        (Modifiers::NONE, KeyCode::UpArrow | KeyCode::ApplicationUpArrow) => Some(MenuKey::Above),
        (Modifiers::NONE, KeyCode::PageDown) => Some(MenuKey::PageDown),
        (Modifiers::NONE, KeyCode::PageUp) => Some(MenuKey::PageUp),
        (Modifiers::NONE, KeyCode::Enter) | (Modifiers::CTRL, KeyCode::Char('J' | 'M')) => {
            Some(MenuKey::Takes)
        }
        (Modifiers::NONE, KeyCode::Escape) | (Modifiers::CTRL, KeyCode::Char('G')) => {
            Some(MenuKey::GivesUp)
        }
        _ => None,
    }
}

/// Returns the edit of a key in an open menu: one that takes the candidate leaves the line, one that gives the
/// completion up has the line from before it, and one that walks has none.
pub fn edit_in_menu<K: KeyPart>(
    alloc: Global,
    key: MenuKey,
    menu: &OpenMenu,
) -> Result<Option<Edit<Option<K::Note>>>, AllocError>
    ensures { IfOk result (λ edit. option_map (edit_view (option_map K.kept)) edit
        ≡ edit_in_menu key menu.now) }
{
    let line = match key {
        MenuKey::Takes => None,
        MenuKey::GivesUp => Some(menu.line.try_clone(alloc)?),
        _ => return Ok(None),
    };
    Ok(Some(Edit {
        line,
        action: Action::Move(Movement::None),
        note: None,
    }))
}
