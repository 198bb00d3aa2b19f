//! Texts from elsewhere, as they can be shown at a terminal.

ghost use Rattle.std.specs.Prelude.{◌≡◌, IfOk, string_bytes};
ghost use Rattle.tw_prompt.specs.Pictures.{control_picture, visible, visible_rows, with_pictures};

use std::alloc::{AllocError, Global};

/// Returns the picture of a character that would do something at a terminal, and else the character: U+2400 and those
/// behind it for the control characters of ASCII, and `?` for those above, for characters that change the direction of
/// a text, and for separators of lines and paragraphs.
fn picture(keeps_rows: bool, c: char) -> char
    ensures { result ≡ control_picture keeps_rows c }
{
    match c {
        '\n' if keeps_rows => c,
        '\0'..='\x1f' => char::from_u32(c as u32 + 0x2400).unwrap_or('?'),
        '\x7f' => '\u{2421}',
        '\u{80}'..='\u{9f}'
        | '\u{61c}'
        | '\u{200e}'..='\u{200f}'
        | '\u{2028}'..='\u{202e}'
        | '\u{2066}'..='\u{2069}' => '?',
        _ => c,
    }
}

/// Returns a text with a picture for each character that would do something at a terminal.
fn with_pictures(alloc: Global, keeps_rows: bool, text: &str) -> Result<String, AllocError>
    ensures { IfOk result (λ shown. string_bytes shown ≡ with_pictures keeps_rows text.now) }
{
    let mut shown = String::new(alloc);
    for c in text.chars() {
        shown.push(picture(keeps_rows, c))?;
    }
    Ok(shown)
}

/// Returns a text with a picture for each character that would do something at a terminal, line feeds too.
pub fn visible(alloc: Global, text: &str) -> Result<String, AllocError>
    ensures { IfOk result (λ shown. string_bytes shown ≡ visible text.now) }
{
    with_pictures(alloc, false, text)
}

/// Returns a text with a picture for each character that would do something at a terminal, except for line feeds.
pub fn visible_rows(alloc: Global, text: &str) -> Result<String, AllocError>
    ensures { IfOk result (λ shown. string_bytes shown ≡ visible_rows text.now) }
{
    with_pictures(alloc, true, text)
}
