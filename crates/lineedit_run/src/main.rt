//! Reads a script from standard input, plays it on a line editor, and writes what the editor shows to
//! standard output.
#![tactic(auto)]

use script_player::{RunFault, run};
use std::process::ExitCode;

fn main(rt: HostRuntime) -> ExitCode {
    let mut reader = rt.stdin();
    let mut writer = rt.stdout();
    match run(rt.alloc(), &mut reader, &mut writer) {
        Ok(()) => ExitCode::SUCCESS,
        Err(RunFault::BadLine(_)) => ExitCode::from(1),
        Err(RunFault::Io | RunFault::Memory) => ExitCode::from(2),
    }
}
