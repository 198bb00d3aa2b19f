//! Reading a script.

ghost use Rattle.std.specs.Prelude.{IfOk, IfErr};
ghost use Rattle.std.specs.Io.KnownBytes.{Consumes, IsAtEnd};
ghost use Rattle.script_player.specs.Written.{IsOutside};

use crate::fault::RunFault;
use std::alloc::Global;
use std::io::Read;

/// The most reads that a script may take, its end included.
const MOST_READS: u32 = 1_048_576;

/// Reads the whole script, at most 4,096 bytes a read.
pub fn read_script<R: Read>(alloc: Global, reader: &mut R) -> Result<Vec<u8>, RunFault>
    ensures script { IfOk result
        (λ script. Consumes (R.remaining reader.old) (R.remaining reader.new) script.items) }
    ensures end { IfOk result (λ _. IsAtEnd (R.remaining reader.new)) }
    ensures fault { IfErr result IsOutside }
{
    let mut script = Vec::new(alloc);
    let mut block = [0u8; 4096];
    for _ in 0..MOST_READS {
        let Ok(count) = reader.read(&mut block) else {
            return Err(RunFault::Io);
        };
        if count == 0 {
            return Ok(script);
        }
        script.extend_from_slice(&block[..count])?;
    }
    Err(RunFault::Io)
}
