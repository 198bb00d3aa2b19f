//! The lines of a script, one after the other.

ghost use Rattle.std.specs.Prelude.{◌<◌, length};
ghost use Rattle.script_player.specs.Lines.{IsFirstLine};

/// Returns the first line, without the line feed that ends it, and what follows.
pub fn split_line(script: &[u8]) -> (&[u8], &[u8])
    requires { 0 < length script.now }
    ensures line { IsFirstLine script.now result.0.now result.1.now }
    ensures shorter { length result.1.now < length script.now }
{
    match script.iter().position(|byte| *byte == b'\n') {
        Some(end) => (&script[..end], &script[end + 1..]),
        None => (script, &script[script.len()..]),
    }
}
