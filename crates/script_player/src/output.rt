//! Writing what is shown.

ghost use Rattle.std.specs.Prelude.{◌≡◌, OnOk, IfErr, IfOk, string_bytes};
ghost use Rattle.std.specs.Io.KnownBytes.{Appends};
ghost use Rattle.script_player.specs.Written.{ExtendsInPart, bad_line};

use crate::fault::RunFault;
use std::alloc::{AllocError, Global};
use std::io::Write;

/// Writes the whole text, or a beginning of it. A write that takes no byte has failed.
pub fn put<W: Write>(writer: &mut W, text: &str) -> Result<(), RunFault>
    ensures ok { OnOk result (Appends (W.contents writer.old) (W.contents writer.new) text.now) }
    ensures part { ExtendsInPart (W.contents writer.old) (W.contents writer.new) text.now }
    ensures fault { IfErr result (λ fault. fault ≡ RunFault.Io) }
{
    let mut rest = text.as_bytes();
    while !rest.is_empty() {
        let Ok(count) = writer.write(rest) else {
            return Err(RunFault::Io);
        };
        if count == 0 {
            return Err(RunFault::Io);
        }
        rest = &rest[count..];
    }
    Ok(())
}

/// Returns the line that names a bad line.
pub fn bad_line_text(alloc: Global, number: u64) -> Result<String, AllocError>
    ensures { IfOk result (λ text. string_bytes text ≡ bad_line number) }
{
    format!(in alloc; "bad line {number}\n")
}
