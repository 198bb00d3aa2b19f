//! Control sequences: ESC [, parameters and a letter.

ghost use Rattle.std.specs.Prelude.{◌≡◌, ◌+◌, ◌<◌, ◌≤◌, ◌^◌, length, [], IfSome};
ghost use Rattle.std.specs.List.{list_all, prefix_len, position_or_len};
ghost use Rattle.tw_input.specs.Modifiers.{modifier_bits};
ghost use Rattle.tw_ansi.specs.KeyBytes.{is_parameter, is_numeric, is_semicolon, number_of, first_number, second_number, third_number, told_bits, numbers_token, size_token, parameters_token, paste_len, paste_of, mouse_report, sequence_at, ended_at, control_at, number_keys, letter_keys, key_in};

use crate::token::{Scanned, Token, key};
use bitflags::Flags;
use tw_input::{KeyCode, KeyEvent, Modifiers};

/// What ends a pasted text.
pub const PASTE_END: [u8; 6] = *b"\x1b[201~";

/// Returns how many bytes are at the front that can stand in a control sequence before its letter.
pub fn parameters_len(bytes: &[u8]) -> usize
    ensures value { result ≡ prefix_len is_parameter bytes.now }
    ensures bound { result ≤ length bytes.now }
{
    for (i, byte) in bytes.iter().enumerate() {
        if !(0x20..=0x3f).contains(byte) {
            return i;
        }
    }
    bytes.len()
}

/// Returns the offset of the first semicolon, or the number of bytes if there is none.
pub fn semicolon_at(bytes: &[u8]) -> usize
    ensures value { result ≡ position_or_len is_semicolon bytes.now }
    ensures bound { result ≤ length bytes.now }
{
    for (i, byte) in bytes.iter().enumerate() {
        if *byte == b';' {
            return i;
        }
    }
    bytes.len()
}

/// Returns the number that digits write, or 4,294,967,295 in place of one above it.
pub fn number_of(digits: &[u8]) -> u32
    ensures { result ≡ number_of digits.now }
{
    let mut number: u32 = 0;
    for byte in digits {
        let digit = byte.saturating_sub(b'0') as u32;
        number = number.saturating_mul(10).saturating_add(digit);
    }
    number
}

/// Returns the first number of some parameters, 0 where none stands there.
fn first_number(parameters: &[u8]) -> u32
    ensures { result ≡ first_number parameters.now }
{
    number_of(&parameters[..semicolon_at(parameters)])
}

/// Returns the second number of some parameters.
fn second_number(parameters: &[u8]) -> u32
    ensures { result ≡ second_number parameters.now }
{
    let end = semicolon_at(parameters);
    if end < parameters.len() {
        first_number(&parameters[end + 1..])
    } else {
        0
    }
}

/// Returns the third number of some parameters.
fn third_number(parameters: &[u8]) -> u32
    ensures { result ≡ third_number parameters.now }
{
    let end = semicolon_at(parameters);
    if end < parameters.len() {
        second_number(&parameters[end + 1..])
    } else {
        0
    }
}

/// Returns the modifiers that a number tells: one more than a sum of 1 for SHIFT, 2 for ALT, 4 for CTRL and 8 for
/// SUPER.
fn told_modifiers(number: u32) -> Modifiers
    ensures { modifier_bits result ≡ told_bits number }
{
    let sum = number.saturating_sub(1) % 16;
    Modifiers::from_bits_retain(sum as u16 * 2)
}

/// Returns the key of a sequence that ends in a letter.
pub fn letter_key(letter: u8) -> Option<KeyCode>
    ensures { result ≡ key_in letter_keys letter }
{
    Some(match letter {
        b'A' => KeyCode::UpArrow,
        b'B' => KeyCode::DownArrow,
        b'C' => KeyCode::RightArrow,
        b'D' => KeyCode::LeftArrow,
        b'F' => KeyCode::End,
        b'H' => KeyCode::Home,
        b'P' => KeyCode::Function(1),
        b'Q' => KeyCode::Function(2),
        b'R' => KeyCode::Function(3),
        b'S' => KeyCode::Function(4),
        _ => return None,
    })
}

/// Returns the key of a sequence that ends in a tilde.
fn number_key(number: u32) -> Option<KeyCode>
    ensures { result ≡ key_in number_keys number }
{
    Some(match number {
        1 | 7 => KeyCode::Home,
        2 => KeyCode::Insert,
        3 => KeyCode::Delete,
        4 | 8 => KeyCode::End,
        5 => KeyCode::PageUp,
        6 => KeyCode::PageDown,
        11 => KeyCode::Function(1),
        12 => KeyCode::Function(2),
        13 => KeyCode::Function(3),
        14 => KeyCode::Function(4),
        15 => KeyCode::Function(5),
        17 => KeyCode::Function(6),
        18 => KeyCode::Function(7),
        19 => KeyCode::Function(8),
        20 => KeyCode::Function(9),
        21 => KeyCode::Function(10),
        23 => KeyCode::Function(11),
        24 => KeyCode::Function(12),
        _ => return None,
    })
}

/// Returns what two numbers and a letter say.
fn numbers_token(first: u32, second: u32, letter: u8) -> Token
    ensures { result ≡ numbers_token first second letter }
{
    if letter == b'R' && first > 1 && second > 0 {
        return Token::Size {
            cols: second as usize,
            rows: first as usize,
        };
    }
    if letter == b'Z' {
        return Token::Key(KeyEvent {
            key: KeyCode::Tab,
            modifiers: Modifiers::SHIFT,
        });
    }
    let code = if letter == b'~' {
        number_key(first)
    } else {
        letter_key(letter)
    };
    match code {
        Some(key) => Token::Key(KeyEvent {
            key,
            modifiers: told_modifiers(second),
        }),
        None => Token::Unknown,
    }
}

/// Returns a size that the terminal tells by itself.
fn size_token(rows: u32, cols: u32) -> Token
    ensures { result ≡ size_token rows cols }
{
    if rows > 0 && cols > 0 {
        return Token::Size {
            cols: cols as usize,
            rows: rows as usize,
        };
    }
    Token::Unknown
}

/// Returns what some parameters and a letter say: a size after 48 and before `t`, as terminals tell it in mode 2048.
#[tactic(auto, unfolding(crate::specs::KeyBytes::parameters_token))]
fn parameters_token(parameters: &[u8], letter: u8) -> Token
    ensures { result ≡ parameters_token parameters.now letter }
{
    let first = first_number(parameters);
    let second = second_number(parameters);
    if letter == b't' && first == 48 {
        return size_token(second, third_number(parameters));
    }
    numbers_token(first, second, letter)
}

/// Returns how many bytes stand before the first end of a pasted text.
pub fn paste_len(bytes: &[u8]) -> Option<usize>
    ensures value { result ≡ paste_len bytes.now }
    ensures bound { IfSome result (λ len. len + 6 ≤ length bytes.now) }
{
    for i in 0..bytes.len() {
        if bytes[i..].starts_with(&PASTE_END) {
            return Some(i);
        }
    }
    None
}

/// Returns a pasted text of which `from` bytes are no text, by where its end begins.
pub fn paste_of(from: usize, left: usize, len: Option<usize>, is_last: bool) -> Option<Scanned>
    requires all { from + left < 2 ^ 64 }
    requires within { IfSome len (λ len. len + 6 ≤ left) }
    ensures { result ≡ paste_of is_last from left len }
{
    match len {
        Some(len) => Some(Scanned {
            token: Token::Paste { from, len },
            used: from + len + PASTE_END.len(),
        }),
        None if is_last => Some(Scanned {
            token: Token::Paste { from, len: left },
            used: from + left,
        }),
        None => None,
    }
}

/// Returns a mouse's report after ESC [ M: three bytes, of which `left` are there.
fn mouse_report(left: usize, is_last: bool) -> Option<Scanned>
    ensures { result ≡ mouse_report is_last left }
{
    if left < 3 && !is_last {
        return None;
    }
    Some(Scanned {
        token: Token::Unknown,
        used: 3 + left.min(3),
    })
}

/// Returns true if only digits and semicolons stand there.
fn all_numeric(bytes: &[u8]) -> bool
    ensures { result ≡ list_all is_numeric bytes.now }
{
    bytes
        .iter()
        .all(|byte| (b'0'..=b'9').contains(byte) || *byte == b';')
}

/// Returns a sequence with these parameters and this letter, and what stands after it.
fn sequence_at(parameters: &[u8], letter: u8, bytes: &[u8], is_last: bool) -> Option<Scanned>
    requires { length parameters.now + length bytes.now + 3 < 2 ^ 64 }
    ensures { result ≡ sequence_at is_last parameters.now letter bytes.now }
{
    let used = 3 + parameters.len();
    if !all_numeric(parameters) {
        return Some(Scanned {
            token: Token::Unknown,
            used,
        });
    }
    let first = first_number(parameters);
    if letter == b'~' && first == 200 {
        return paste_of(used, bytes.len(), paste_len(bytes), is_last);
    }
    if letter == b'M' && parameters.is_empty() {
        return mouse_report(bytes.len(), is_last);
    }
    Some(Scanned {
        token: parameters_token(parameters, letter),
        used,
    })
}

/// Cuts off parameters by what stands after them.
pub fn ended_at(parameters: &[u8], bytes: &[u8], is_last: bool) -> Option<Scanned>
    requires { length parameters.now + length bytes.now + 3 < 2 ^ 64 }
    ensures { result ≡ ended_at is_last parameters.now bytes.now }
{
    match bytes {
        [] if is_last => key(KeyCode::Char('['), Modifiers::ALT, 2),
        [] => None,
        [letter @ 0x40..=0x7e, rest @ ..] => sequence_at(parameters, *letter, rest, is_last),
        _ => Some(Scanned {
            token: Token::Unknown,
            used: 2 + parameters.len(),
        }),
    }
}

/// Returns what stands after ESC [.
pub fn control_at(bytes: &[u8], is_last: bool) -> Option<Scanned>
    requires { length bytes.now + 3 < 2 ^ 64 }
    ensures { result ≡ control_at is_last bytes.now }
{
    let len = parameters_len(bytes);
    ended_at(&bytes[..len], &bytes[len..], is_last)
}
