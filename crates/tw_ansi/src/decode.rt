//! What the bytes from a terminal say.

ghost use Rattle.std.specs.Prelude.{◌≡◌, ◌+◌, ◌<◌, ◌≤◌, length, true, IfSome, IsSome};
ghost use Rattle.tw_ansi.specs.KeyBytes.{token_at, escape_alone, second_escape_at, escape_at, application_at, application_keys, key_in};

use crate::characters::character_at;
use crate::control::{control_at, letter_key};
use crate::strings::string_at;
use crate::token::{Scanned, key, with_alt};
use tw_input::{KeyCode, Modifiers};

pub const ESC: u8 = 0x1b;

/// Returns the token at the front of the bytes, or none where more bytes are wanted. An ESC alone is the key Escape.
/// Where these are the last bytes there is always one.
pub fn scan(bytes: &[u8], is_last: bool) -> Option<Scanned>
    requires { 0 < length bytes.now }
    ensures value { result ≡ token_at is_last bytes.now }
    ensures takes { IfSome result (λ s. 0 < s.used) }
    ensures within { IfSome result (λ s. s.used ≤ length bytes.now) }
    ensures ends { is_last ≡ true → IsSome result }
{
    token_at(bytes, is_last)
}

#[tactic(auto, unfolding(crate::specs::KeyBytes::token_at))]
pub fn token_at(bytes: &[u8], is_last: bool) -> Option<Scanned>
    ensures { result ≡ token_at is_last bytes.now }
{
    match bytes {
        [] => None,
        [ESC, rest @ ..] => escape_at(rest, is_last),
        [first, rest @ ..] => character_at(*first, rest, is_last),
    }
}

/// Returns an ESC that stands for itself.
fn escape_alone() -> Option<Scanned>
    ensures { result ≡ escape_alone }
{
    key(KeyCode::Escape, Modifiers::NONE, 1)
}

/// Returns what stands after ESC ESC: the bytes of a key with a letter, which a terminal sends so for Alt.
fn second_escape_at(bytes: &[u8], is_last: bool) -> Option<Scanned>
    ensures { result ≡ second_escape_at is_last bytes.now }
{
    let code = match bytes {
        [] | [b'['] | [b'O'] if !is_last => return None,
        [b'[', letter, ..] => letter_key(*letter),
        [b'O', letter, ..] => application_key(*letter),
        _ => None,
    };
    match code {
        Some(code) => key(code, Modifiers::ALT, 4),
        None => escape_alone(),
    }
}

/// Returns what stands after an ESC.
fn escape_at(bytes: &[u8], is_last: bool) -> Option<Scanned>
    ensures { result ≡ escape_at is_last bytes.now }
{
    match bytes {
        [] => escape_alone(),
        [ESC, rest @ ..] => second_escape_at(rest, is_last),
        [b'[', rest @ ..] => control_at(rest, is_last),
        [b'O', rest @ ..] => application_at(rest, is_last),
        [opening @ (b']' | b'P'), rest @ ..] => string_at(*opening, rest, is_last),
        [first, rest @ ..] => {
            let Scanned { token, used } = character_at(*first, rest, is_last)?;
            Some(Scanned {
                token: with_alt(token),
                used: used + 1,
            })
        }
    }
}

/// Returns the key of ESC O and a letter.
fn application_key(letter: u8) -> Option<KeyCode>
    ensures { result ≡ key_in application_keys letter }
{
    Some(match letter {
        b'A' => KeyCode::ApplicationUpArrow,
        b'B' => KeyCode::ApplicationDownArrow,
        b'C' => KeyCode::ApplicationRightArrow,
        b'D' => KeyCode::ApplicationLeftArrow,
        b'F' => KeyCode::End,
        b'H' => KeyCode::Home,
        b'M' => KeyCode::Enter,
        b'P' => KeyCode::Function(1),
        b'Q' => KeyCode::Function(2),
        b'R' => KeyCode::Function(3),
        b'S' => KeyCode::Function(4),
        b'X' => KeyCode::Char('='),
        b'j' => KeyCode::Char('*'),
        b'k' => KeyCode::Char('+'),
        b'l' => KeyCode::Char(','),
        b'm' => KeyCode::Char('-'),
        b'n' => KeyCode::Char('.'),
        b'o' => KeyCode::Char('/'),
        b'p' => KeyCode::Char('0'),
        b'q' => KeyCode::Char('1'),
        b'r' => KeyCode::Char('2'),
        b's' => KeyCode::Char('3'),
        b't' => KeyCode::Char('4'),
        b'u' => KeyCode::Char('5'),
        b'v' => KeyCode::Char('6'),
        b'w' => KeyCode::Char('7'),
        b'x' => KeyCode::Char('8'),
        b'y' => KeyCode::Char('9'),
        _ => return None,
    })
}

/// Returns what stands after ESC O: a key of the application mode, or ALT and O were pressed.
fn application_at(bytes: &[u8], is_last: bool) -> Option<Scanned>
    ensures { result ≡ application_at is_last bytes.now }
{
    let alt_o = key(KeyCode::Char('O'), Modifiers::ALT, 2);
    match bytes {
        [] if is_last => alt_o,
        [] => None,
        [letter, ..] => match application_key(*letter) {
            Some(code) => key(code, Modifiers::NONE, 3),
            None => alt_o,
        },
    }
}
