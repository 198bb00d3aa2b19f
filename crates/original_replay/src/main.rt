//! Plays the scripts that the original crate has answered, and compares what each one prints with its answer.
//! The answers are files in the folder that the program runs in; how they were made is in docs/DIFFERENCES.md.
//! Standard output has a line for each file, and each script whose answer differs; the exit status is 1 where
//! one does.
#![tactic(auto)]

mod answers;

use crate::answers::{Agreement, compare};
use std::alloc::Global;
use std::fs;
use std::process::ExitCode;

/// The files of answers: keys that need neither history nor host; walks and searches too; candidates and
/// previews too.
const FILES: [&str; 3] = ["editing.txt", "history.txt", "completion.txt"];

fn main(rt: HostRuntime) -> Result<ExitCode, anyhow::Error> {
    let mut all = Agreement::default();
    for name in FILES {
        let answers = fs::read_to_string(&rt, name)?;
        let agreement = compare(&rt, &answers)?;
        println!(rt; "{name}: {agreement}")?;
        all.add(agreement);
    }
    println!(rt; "all: {all}")?;
    Ok(if all.is_whole() {
        ExitCode::SUCCESS
    } else {
        ExitCode::FAILURE
    })
}
