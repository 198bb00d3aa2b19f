//! What a batch shows, as its texts alone tell.

use tw_surface::Change;

/// The texts of a painting.
#[derive(Clone, Copy)]
pub struct PaintedTexts<'a> {
    /// The prompt.
    pub prompt: &'a str,
    /// The line before its cursor.
    pub front: &'a str,
    /// The line from its cursor on.
    pub back: &'a str,
    /// The lines under the line, with CR LF between them.
    pub lower: Option<&'a str>,
}

/// What a batch does.
#[derive(Clone, Copy)]
pub enum Batch<'a> {
    /// It clears the whole screen.
    Clears,
    /// It paints.
    Paints(PaintedTexts<'a>),
    /// It ends a reading.
    Closes,
    /// Something else.
    Unknown,
}

impl<'a> Batch<'a> {
    /// Reads the changes of a batch. The moves of the cursor are passed over.
    pub fn read(changes: &'a [Change]) -> Self {
        match changes {
            [Change::ClearScreen(_)] => Batch::Clears,
            [Change::CursorPosition { .. }, Change::ClearToEndOfScreen(_)] => Batch::Closes,
            [Change::CursorPosition { .. }, painting @ ..] => read_painting(painting),
            painting => read_painting(painting),
        }
    }
}

fn read_painting(changes: &[Change]) -> Batch<'_> {
    match changes {
        [
            Change::ClearToEndOfScreen(_),
            Change::AllAttributes(_),
            Change::Text(prompt),
            Change::AllAttributes(_),
            Change::Text(front),
            Change::Attribute(_),
            Change::Text(back),
            rest @ ..,
            Change::CursorPosition { .. },
        ] => Batch::Paints(PaintedTexts {
            prompt: prompt.as_str(),
            front: front.as_str(),
            back: back.as_str(),
            lower: read_lower(rest),
        }),
        _ => Batch::Unknown,
    }
}

/// Returns the lower text. That of a preview stands after a line break of its own, and that of a search begins with it.
fn read_lower(changes: &[Change]) -> Option<&str> {
    match changes {
        [
            ..,
            Change::Text(line_break),
            Change::AllAttributes(_),
            Change::Text(text),
        ] if line_break.as_str() == "\r\n" => { Some(text.as_str()) }
        [.., Change::AllAttributes(_), Change::Text(text)] => text.as_str().strip_prefix("\r\n"),
        _ => None,
    }
}
