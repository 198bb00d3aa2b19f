//! Actions by their names.

use script_player::event_named;
use std::alloc::Global;
use std::test::Fail;
use tw_lineedit::{Action, Movement, default_action};

/// Returns the movement of a name and a count, as `ForwardWord 2`, or of a name without a count, as `EndOfLine`.
pub fn movement_named(text: &str) -> Result<Movement, Fail> {
    let (name, count) = text.split_once(' ').unwrap_or((text, "1"));
    let count = count.parse()?;
    match name {
        "BackwardChar" => Ok(Movement::BackwardChar(count)),
        "BackwardWord" => Ok(Movement::BackwardWord(count)),
        "ForwardChar" => Ok(Movement::ForwardChar(count)),
        "ForwardWord" => Ok(Movement::ForwardWord(count)),
        "StartOfLine" => Ok(Movement::StartOfLine),
        "EndOfLine" => Ok(Movement::EndOfLine),
        "None" => Ok(Movement::None),
        _ => Err(Fail::from("no movement of this name")),
    }
}

/// Returns the two movements of `KILL, MOVE`.
pub fn movements_named(text: &str) -> Result<(Movement, Movement), Fail> {
    let (kill, movement) = text.split_once(", ").ok_or("no second movement")?;
    Ok((movement_named(kill)?, movement_named(movement)?))
}

/// Returns the action of a name, as `InsertText 3 xy`, `InsertChar 2 !`, `Kill BackwardWord 1`, `KillAndMove EndOfLine,
/// None` or `Cancel`, or that which the key table gives for the event of this name.
pub fn action_named(alloc: Global, text: &str) -> Result<Action, Fail> {
    let (name, rest) = text.split_once(' ').unwrap_or((text, ""));
    match name {
        "Move" | "Kill" | "KillAndMove" => moving_action(name, rest),
        "InsertChar" | "InsertText" => insertion_named(alloc, name, rest),
        _ => match plain_action(name) {
            Some(action) => Ok(action),
            None => action_of_event(alloc, text),
        },
    }
}

/// Returns the action of a name that says all of it.
fn plain_action(name: &str) -> Option<Action> {
    match name {
        "AcceptLine" => Some(Action::AcceptLine),
        "Cancel" => Some(Action::Cancel),
        "EndOfFile" => Some(Action::EndOfFile),
        "Repaint" => Some(Action::Repaint),
        "HistoryPrevious" => Some(Action::HistoryPrevious),
        "HistoryNext" => Some(Action::HistoryNext),
        "HistoryIncSearchBackwards" => Some(Action::HistoryIncSearchBackwards),
        "HistoryIncSearchForwards" => Some(Action::HistoryIncSearchForwards),
        "Complete" => Some(Action::Complete),
        "NoAction" => Some(Action::NoAction),
        _ => None,
    }
}

/// Returns the action that the key table gives for the event of this name.
fn action_of_event(alloc: Global, name: &str) -> Result<Action, Fail> {
    let event = event_named(alloc, name)?.ok_or("no action of this name")?;
    Ok(default_action(alloc, &event)?.ok_or("no action")?)
}

/// Returns the action of a movement, or `KillAndMove` of two.
fn moving_action(name: &str, text: &str) -> Result<Action, Fail> {
    if name == "KillAndMove" {
        let (kill, movement) = movements_named(text)?;
        return Ok(Action::KillAndMove(kill, movement));
    }
    let movement = movement_named(text)?;
    Ok(if name == "Move" {
        Action::Move(movement)
    } else {
        Action::Kill(movement)
    })
}

/// Parses `COUNT TEXT`.
fn counted_text(text: &str) -> Result<(usize, &str), Fail> {
    let (count, text) = text.split_once(' ').ok_or("no text")?;
    Ok((count.parse()?, text))
}

fn insertion_named(alloc: Global, name: &str, text: &str) -> Result<Action, Fail> {
    let (count, text) = counted_text(text)?;
    if name == "InsertChar" {
        return Ok(Action::InsertChar(count, text.parse()?));
    }
    Ok(Action::InsertText(count, String::from_str(alloc, text)?))
}
