//! Running a script.

ghost use Rattle.std.specs.Prelude.{◌≡◌, ◌<◌, ◌⊎◌, IfErr, OnOk};
ghost use Rattle.std.specs.Io.KnownBytes.{IsAtEnd};
ghost use Rattle.script_player.specs.Lines.{script_lines};
ghost use Rattle.script_player.specs.Written.{Extends, NamesBadLine};
ghost use Rattle.script_player.specs.Playback.{stage_of};
ghost use Rattle.script_player.specs.Playing.{Ends, FailsToPlay, PlaysLine, Runs};

use crate::directive::parse_line;
use crate::fault::RunFault;
use crate::input::read_script;
use crate::lines::split_line;
use crate::output::{bad_line_text, put};
use crate::playback::Playback;
use std::alloc::Global;
use std::io::{Read, Write};

/// Reads a script, runs it line by line, and writes what it shows. A line that is no directive ends the run
/// and is named in what is written; an empty line is passed over.
pub fn run<R: Read, W: Write>(alloc: Global, reader: &mut R, writer: &mut W) -> Result<(), RunFault>
    ensures kept { Extends (W.contents writer.old) (W.contents writer.new) }
    ensures bad_line { IfErr result (NamesBadLine (W.contents writer.old) (W.contents writer.new)) }
    ensures played { Runs (R.remaining reader.old) (R.remaining reader.new) (W.contents writer.old)
        (W.contents writer.new) result }
    ensures end { OnOk result (IsAtEnd (R.remaining reader.new)) }
    ensures unread { IsAtEnd (R.remaining reader.new) ⊎ (writer.new ≡ writer.old) }
{
    let script = read_script(alloc, reader)?;
    play_script(alloc, script.as_slice(), writer)?;
    match writer.flush() {
        Ok(()) => Ok(()),
        Err(_) => Err(RunFault::Io),
    }
}

/// Runs a script line by line.
fn play_script<W: Write>(alloc: Global, script: &[u8], writer: &mut W) -> Result<(), RunFault>
    ensures kept { Extends (W.contents writer.old) (W.contents writer.new) }
    ensures bad_line { IfErr result (NamesBadLine (W.contents writer.old) (W.contents writer.new)) }
    ensures played { Ends (script_lines script.now) (W.contents writer.old)
        (W.contents writer.new) result }
{
    let mut playback = Playback::new(alloc)?;
    let mut rest = script;
    let mut number: u64 = 0;
    while !rest.is_empty() {
        let (line, after) = split_line(rest);
        number = number.saturating_add(1);
        play_line(alloc, &mut playback, number, line, writer)?;
        rest = after;
    }
    Ok(())
}

/// Does what a line asks for. Where it is no directive, writes its number.
fn play_line<W: Write>(
    alloc: Global,
    playback: &mut Playback,
    number: u64,
    line: &[u8],
    writer: &mut W,
) -> Result<(), RunFault>
    requires { 0 < number }
    ensures kept { Extends (W.contents writer.old) (W.contents writer.new) }
    ensures bad_line { IfErr result (NamesBadLine (W.contents writer.old) (W.contents writer.new)) }
    ensures played { OnOk result
        (PlaysLine line.now (stage_of playback.old) (stage_of playback.new) (W.contents writer.old)
        (W.contents writer.new)) }
    ensures fails { IfErr result
        (FailsToPlay number line.now (stage_of playback.old) (W.contents writer.old)
        (W.contents writer.new)) }
{
    if line.is_empty() {
        return Ok(());
    }
    let Some(directive) = parse_line(line) else {
        let shown = bad_line_text(alloc, number)?;
        put(writer, shown.as_str())?;
        return Err(RunFault::BadLine(number));
    };
    playback.obey(directive, writer)
}
