//! The first example of README.md: a prompt that prints what it reads.
#![tactic(auto)]

use tw_prompt::{Answer, Prompt};

fn main(rt: HostRuntime) -> Result<(), anyhow::Error> {
    let alloc = rt.alloc();
    let mut prompt = Prompt::open(rt, "$ ")?;
    for _ in 0..u64::MAX {
        match prompt.read()? {
            Answer::Line(line) => {
                let told = format!(in alloc; "read {line:?}")?;
                prompt.print(told.as_str())?;
            }
            Answer::Cancelled => {}
            Answer::End(_) => break,
        }
    }
    prompt.close()?;
    Ok(())
}
