//! Characters and control keys.

ghost use Rattle.std.specs.Prelude.{◌≡◌, ◌<◌, ◌≤◌, length, take, IfSome};
ghost use Rattle.std.specs.List.{list_all};
ghost use Rattle.tw_ansi.specs.KeyBytes.{is_continuation, following_len, code_of, least_code, whole_character, wide_character, typed_at, with_control, character_at};

use crate::token::{Scanned, key, replacement};
use tw_input::{KeyCode, Modifiers};

/// Returns the code that the bytes of a character write, by its first byte and those that follow.
fn code_of(first: u8, following: &[u8]) -> u32
    ensures { result ≡ code_of first following.now }
{
    let b = first as u32;
    match following {
        [c] => b % 32 * 64 + *c as u32 % 64,
        [c, d] => b % 16 * 4096 + *c as u32 % 64 * 64 + *d as u32 % 64,
        [c, d, e] => {
            b % 8 * 262_144 + *c as u32 % 64 * 4096 + *d as u32 % 64 * 64 + *e as u32 % 64
        }
        _ => 0,
    }
}

/// Returns the least code that takes `following` bytes after the first one.
fn least_code(following: usize) -> u32
    ensures { result ≡ least_code following }
{
    match following {
        1 => 128,
        2 => 2048,
        _ => 65_536,
    }
}

/// Returns a character, all of whose bytes are there.
fn whole_character(first: u8, following: &[u8]) -> Option<Scanned>
    requires { length following.now ≤ 3 }
    ensures value { result ≡ whole_character first following.now }
    ensures bound { IfSome result (λ s. s.used ≤ 4) }
{
    let code = code_of(first, following);
    if code < least_code(following.len()) {
        return replacement();
    }
    match char::from_u32(code) {
        Some(character) => key(
            KeyCode::Char(character),
            Modifiers::NONE,
            1 + following.len(),
        ),
        None => replacement(),
    }
}

/// Returns how many bytes follow the first byte of a character of several.
fn following_len(first: u8) -> usize
    ensures value { result ≡ following_len first }
    ensures bound { result ≤ 3 }
{
    match first {
        0..=0xdf => 1,
        0xe0..=0xef => 2,
        _ => 3,
    }
}

/// Returns the first `len` bytes, or all.
#[tactic(auto, using(std::proofs::lemmas::List::take_min))]
fn first_bytes(bytes: &[u8], len: usize) -> &[u8]
    ensures { result.now ≡ take len bytes.now }
{
    &bytes[..len.min(bytes.len())]
}

/// Returns true if all bytes can stand after the first one of a character.
fn all_follow(bytes: &[u8]) -> bool
    ensures { result ≡ list_all is_continuation bytes.now }
{
    bytes.iter().all(|byte| (0x80..=0xbf).contains(byte))
}

/// Returns a character of several bytes, by those that are there.
fn wide_character(first: u8, following: &[u8], is_last: bool) -> Option<Scanned>
    requires { length following.now ≤ 3 }
    ensures value { result ≡ wide_character is_last first following.now }
    ensures bound { IfSome result (λ s. s.used ≤ 4) }
{
    if !all_follow(following) {
        return replacement();
    }
    if following.len() < following_len(first) {
        return if is_last { replacement() } else { None };
    }
    whole_character(first, following)
}

/// Returns a control key with no key of its own.
fn with_control(byte: u8) -> Option<Scanned>
    requires { byte < 32 }
    ensures value { result ≡ with_control byte }
    ensures bound { IfSome result (λ s. s.used ≤ 4) }
{
    if byte == 0 {
        return key(KeyCode::Char(' '), Modifiers::CTRL, 1);
    }
    key(KeyCode::Char((byte + 64) as char), Modifiers::CTRL, 1)
}

/// Returns a character that is no control character.
fn typed_at(first: u8, bytes: &[u8], is_last: bool) -> Option<Scanned>
    ensures value { result ≡ typed_at is_last first bytes.now }
    ensures bound { IfSome result (λ s. s.used ≤ 4) }
{
    match first {
        0..=0x7e => key(KeyCode::Char(first as char), Modifiers::NONE, 1),
        0xc2..=0xf4 => { wide_character(first, first_bytes(bytes, following_len(first)), is_last) }
        _ => replacement(),
    }
}

/// Returns a character or a control key, by its first byte and what stands after it.
pub fn character_at(first: u8, bytes: &[u8], is_last: bool) -> Option<Scanned>
    ensures value { result ≡ character_at is_last first bytes.now }
    ensures bound { IfSome result (λ s. s.used ≤ 4) }
{
    let code = match first {
        0x08 | 0x7f => KeyCode::Backspace,
        b'\t' => KeyCode::Tab,
        b'\n' | b'\r' => KeyCode::Enter,
        0x1b => KeyCode::Escape,
        0..=0x1f => return with_control(first),
        _ => return typed_at(first, bytes, is_last),
    };
    key(code, Modifiers::NONE, 1)
}
