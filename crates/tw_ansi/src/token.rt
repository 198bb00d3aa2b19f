//! What stands at the front of the bytes from a terminal.

ghost use Rattle.std.specs.Prelude.{◌≡◌};
ghost use Rattle.tw_ansi.specs.KeyBytes.{key_token, scanned_as, replacement, with_alt};
ghost use Rattle.tw_input.specs.Modifiers.{modifier_bits};

use bitflags::Flags;
use tw_input::{KeyCode, KeyEvent, Modifiers};

/// What stands at the front of some bytes.
#[derive(Debug, Clone, Copy, PartialEq, Eq)]
pub enum Token {
    /// A key.
    Key(KeyEvent),
    /// The place of the cursor, counted from 1. A terminal that was sent to the last cell tells its size by it. In
    /// row 1 its bytes are those of F3, which is then taken.
    Size { cols: usize, rows: usize },
    /// A pasted text: `from` bytes that are no part of it, then `len` bytes of text. Its end takes six more.
    Paste { from: usize, len: usize },
    /// A control sequence or a control string that means nothing here.
    Unknown,
}

/// A token, and how many bytes it takes.
#[derive(Debug, Clone, Copy, PartialEq, Eq)]
pub struct Scanned {
    pub token: Token,
    pub used: usize,
}

/// Returns a key that takes `used` bytes.
pub fn key(key: KeyCode, modifiers: Modifiers, used: usize) -> Option<Scanned>
    ensures { result ≡ scanned_as (key_token key (modifier_bits modifiers)) used }
{
    Some(Scanned {
        token: Token::Key(KeyEvent { key, modifiers }),
        used,
    })
}

/// Returns what a byte that is no part of a character is shown as.
pub fn replacement() -> Option<Scanned>
    ensures { result ≡ replacement }
{
    key(KeyCode::Char('\u{fffd}'), Modifiers::NONE, 1)
}

/// Returns the same key, with ALT held too.
pub fn with_alt(token: Token) -> Token
    ensures { result ≡ with_alt token }
{
    match token {
        Token::Key(event) => Token::Key(KeyEvent {
            key: event.key,
            modifiers: Modifiers::from_bits_retain(event.modifiers.bits() | Modifiers::ALT.bits()),
        }),
        other => other,
    }
}
