//! What the text of a directive stands for.

ghost use Rattle.std.specs.Prelude.{◌≡◌, string_bytes, IfOk};
ghost use Rattle.script_player.specs.Escapes.{unescaped_text};

use std::alloc::{AllocError, Global};

/// Returns the text with CR LF in place of each `\n`. A backslash before any other character, or at the end, is itself.
pub fn unescape(alloc: Global, text: &str) -> Result<String, AllocError>
    ensures { IfOk result (λ lines. string_bytes lines ≡ unescaped_text text.now) }
{
    text.replace(alloc, "\\n", "\r\n")
}
