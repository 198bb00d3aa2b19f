//! An explorer of JSON: `example_explorer FILE`. A line is a path, such as `users.0.name`, and what stands there is
//! printed. Tab completes a name, and what leads nowhere is red.
#![tactic(auto)]

use anyhow::anyhow;
use serde_json::Value;
use std::alloc::{AllocError, Global};
use std::fs;
use tw_prompt::{Application, Arguments, Offers, Painter, Prompt, Style, visible_rows};

/// A value, which is explored.
#[derive(Drop)]
struct Explorer {
    root: Value,
}

/// Returns what a value has under a name, or at a number.
fn step_into<'v>(value: &'v Value, name: &str) -> Option<&'v Value> {
    match name.parse::<usize>() {
        Ok(index) => value.get(index),
        Err(_) => value.get(name),
    }
}

impl Explorer {
    /// Returns the value at a path, if there is one.
    fn at(&self, path: &str) -> Option<&Value> {
        let mut value = &self.root;
        if !path.is_empty() {
            for name in path.split('.') {
                value = step_into(value, name)?;
            }
        }
        Some(value)
    }

    /// Returns the length of the longest beginning of a path that leads to a value.
    fn known_len(&self, path: &str) -> usize {
        let mut known = 0;
        for (at, _) in path.match_indices('.') {
            if self.at(path.get(..at).unwrap_or("")).is_some() {
                known = at;
            }
        }
        if self.at(path).is_some() {
            path.len()
        } else {
            known
        }
    }
}

impl Application for Explorer {
    fn is_word(&self, c: char) -> bool {
        c != '.'
    }

    fn complete(&self, _line: &str, offers: &mut Offers<'_>) -> Result<(), AllocError> {
        let path = offers.before.strip_suffix('.').unwrap_or("");
        if let Some(Value::Object(members)) = self.at(path) {
            for (name, _) in members {
                offers.offer(name.as_str())?;
            }
        }
        Ok(())
    }

    fn highlight(&self, line: &str, painter: &mut Painter) -> Result<(), AllocError> {
        painter.paint(self.known_len(line)..line.len(), Style::red())
    }

    fn answer(&mut self, alloc: Global, line: &str) -> Result<Option<String>, AllocError> {
        let shown = match self.at(line) {
            Some(value) => value.to_string_pretty(alloc)?,
            None => format!(in alloc; "nothing is at {line}")?,
        };
        Ok(Some(visible_rows(alloc, shown.as_str())?))
    }
}

fn main(rt: HostRuntime) -> Result<(), anyhow::Error> {
    let arguments = Arguments::read(rt)?;
    let Some(path) = arguments.own.as_slice().first() else {
        return Err(anyhow!("it wants a file of JSON"));
    };
    let text = fs::read_to_string(&rt, path)?;
    let mut explorer = Explorer {
        root: Value::from_str(rt.alloc(), text.as_str())?,
    };
    let _end = Prompt::open(rt, "json> ")?.run(&mut explorer)?;
    Ok(())
}
