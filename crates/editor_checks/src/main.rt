//! Plays lines from bytes to bytes, and compares what is shown with a table whose cells are found by division.
//! Without an argument it plays what the gate compares; `few` plays a part of it. It prints what it found.
//!
//! The bytes of keys (`keystrokes`, `trial`) come in pieces, cut anywhere, on screens of 2 to 30 rows and 2 to 40
//! columns. An editor reads lines from them, one after the other, and writes bytes to a terminal (`readings`, `ends`).
//! What was written is to be the bytes of the batches that another editor paints, which gets the same keys and no
//! bytes; and a terminal after ECMA-48 that receives them (`shown`) is to hold, after each batch, in each cell and at
//! its cursor, what the table says, as long as no painting has more rows than the screen. The table knows what a batch
//! shows by its texts only (`painted`), and `host` marks the cursor in the line.
#![tactic(auto)]

mod count;
mod ends;
mod host;
mod keystrokes;
mod painted;
mod random_numbers;
mod readings;
mod replay;
mod shown;
mod table;
mod trial;

use crate::count::Count;
use crate::random_numbers::RandomNumbers;
use crate::replay::replay;
use crate::trial::Trial;
use anyhow::anyhow;
use std::alloc::Global;
use std::env;

const SEED: u64 = 20_251_125;

/// How many parts are played.
const PARTS: usize = 10;

/// The trials of a part.
const TRIALS: usize = 400;

fn main(rt: HostRuntime) -> Result<(), anyhow::Error> {
    let mut words = env::args(&rt)?.skip(1);
    let Some(word) = words.next() else {
        return check(&rt, PARTS);
    };
    match word.as_str() {
        "few" => check(&rt, 1),
        other => Err(anyhow!("no check has the name {other}")),
    }
}

/// Plays `parts` parts, and prints a line for each and one for all.
fn check(rt: &(impl Print + Alloc<A = Global>), parts: usize) -> Result<(), anyhow::Error> {
    let mut numbers = RandomNumbers::new(SEED);
    let mut all = Count::default();
    for part in 1..=parts {
        let count = play_part(rt, &mut numbers)?;
        println!(rt; "part {part}: {count}")?;
        all.add(count);
    }
    println!(rt; "all: {all}")?;
    Ok(())
}

/// Plays some trials, and shows each one in which something differs.
fn play_part(
    rt: &(impl Print + Alloc<A = Global>),
    numbers: &mut RandomNumbers,
) -> Result<Count, anyhow::Error> {
    let mut all = Count::default();
    for _ in 0..TRIALS {
        let trial = Trial::generate(rt.alloc(), numbers)?;
        let mut count = Count::default();
        replay(rt.alloc(), &trial, &mut count)?;
        if count.differences > 0 {
            println!(rt; "{count}: {trial:?}")?;
        }
        all.add(count);
    }
    Ok(all)
}
