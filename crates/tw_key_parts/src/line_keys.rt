//! Keys that edit the line.

ghost use Rattle.std.specs.Prelude.{◌≡◌, IfOk, IsCharBoundary};
ghost use Rattle.tw_input.specs.EventView.{event_view};
ghost use Rattle.tw_key_parts.specs.LineKeys.{after_blanks, before_blanks, commented, line_edit_of, without_blanks};

use crate::edit::{Edit, EditResult, shown};
use crate::part::Asked;
use crate::plain_keys::PlainKeys;
use crate::row_keys::{row_end, row_start};
use std::alloc::{AllocError, Global};
use tw_host::Action;
use tw_input::{InputEvent, KeyCode, Modifiers};
use tw_line::{History, LineEditBuffer};

/// An edit of the line.
#[derive(Clone, Copy, Debug, PartialEq, Eq)]
pub enum LineEdit {
    /// Deletes the whitespace around the cursor.
    DeleteBlanks,
    /// Puts a `#` before the line, and accepts it.
    Comment,
}

/// Returns the edit of Alt-\ or Alt-#.
pub fn line_edit_of(event: &InputEvent) -> Option<LineEdit>
    ensures { result ≡ line_edit_of (event_view event.now) }
{
    let InputEvent::Key(press) = event else {
        return None;
    };
    match (press.modifiers, press.key) {
        (Modifiers::ALT, KeyCode::Char('\\')) => Some(LineEdit::DeleteBlanks),
        (Modifiers::ALT, KeyCode::Char('#')) => Some(LineEdit::Comment),
        _ => None,
    }
}

/// Returns the text before the whitespace that ends at an offset, in its row.
fn before_blanks(line: &str, at: usize) -> &str
    requires { IsCharBoundary line.now at }
    ensures { result.now ≡ before_blanks line.now at }
{
    let (front, _) = line.split_at(at);
    let words = front.trim_end();
    let (rows, _) = line.split_at(row_start(line, at));
    if words.len() < rows.len() {
        rows
    } else {
        words
    }
}

/// Returns the text after the whitespace that begins at an offset, in its row.
fn after_blanks(line: &str, at: usize) -> &str
    requires { IsCharBoundary line.now at }
    ensures { result.now ≡ after_blanks line.now at }
{
    let (_, rest) = line.split_at(at);
    let words = rest.trim_start();
    let (_, rows) = line.split_at(row_end(line, at));
    if rows.len() > words.len() {
        rows
    } else {
        words
    }
}

/// Returns the line without the whitespace around the cursor in its row.
#[tactic(auto, using(crate::proofs::StepLemmas::text_starts))]
pub fn without_blanks(alloc: Global, editor: &LineEditBuffer) -> Result<LineEditBuffer, AllocError>
    ensures { IfOk result (λ changed. changed ≡ without_blanks editor.now) }
{
    let (line, at) = (editor.get_line(), editor.get_cursor());
    let mut changed = LineEditBuffer::new(alloc, after_blanks(line, at), 0)?;
    changed.insert_text(before_blanks(line, at))?;
    Ok(changed)
}

/// Returns the line with a `#` before it, and the cursor after that.
#[tactic(auto, using(crate::proofs::StepLemmas::text_starts))]
pub fn commented(alloc: Global, editor: &LineEditBuffer) -> Result<LineEditBuffer, AllocError>
    ensures { IfOk result (λ changed. changed ≡ commented editor.now) }
{
    let mut changed = LineEditBuffer::new(alloc, editor.get_line(), 0)?;
    changed.insert_text("#")?;
    Ok(changed)
}

/// Alt-\ deletes the whitespace around the cursor in its row. Alt-# puts a `#` before the line, and accepts it. They have
/// no action during a search.
#[derive(Debug, Drop)]
pub struct LineKeys;

impl PlainKeys for LineKeys {
    ghost use Rattle.tw_key_parts.specs.LineKeys.{line_key_edit};

    ghost edits = { line_key_edit };

    fn edit<L: History>(&self, alloc: Global, asked: &Asked<'_, L>) -> EditResult<()> {
        if asked.searching {
            return Ok(None);
        }
        match line_edit_of(asked.event) {
            Some(LineEdit::DeleteBlanks) => Ok(Some(shown(without_blanks(alloc, asked.line)?, ()))),
            Some(LineEdit::Comment) => Ok(Some(Edit {
                line: Some(commented(alloc, asked.line)?),
                action: Action::AcceptLine,
                note: (),
            })),
            None => Ok(None),
        }
    }
}
