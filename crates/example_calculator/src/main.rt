//! A calculator of whole numbers: `example_calculator [FILE]`. A line is an expression, or `name = expression`, and FILE
//! keeps the lines.
#![tactic(auto)]

mod expression;

use expression::{FUNCTIONS, Fault, TokenKind, Variable, tokens, value_of};
use std::alloc::{AllocError, Global};
use tw_prompt::{
    Application, Arguments, NestedLines, Offers, Painter, Prompt, Style, Validation, Validator,
    common_pairs, visible,
};

/// The variables.
#[derive(Drop)]
struct Calculator {
    variables: Vec<Variable>,
}

impl Calculator {
    /// Calculates a line, and keeps its value if the line names it.
    fn calculate(&mut self, alloc: Global, line: &str) -> Result<i64, Fault> {
        let (name, expression) = line.split_once('=').unwrap_or(("last", line));
        let value = value_of(alloc, self.variables.as_slice(), expression)?;
        let name = String::from_str(alloc, name.trim())?;
        self.variables.retain(|it| it.name != name);
        self.variables.push(Variable { name, value })?;
        Ok(value)
    }

    /// Returns true for the name of a variable.
    fn has(&self, name: &str) -> bool {
        self.variables.iter().any(|it| it.name.as_str() == name)
    }
}

impl Application for Calculator {
    fn complete(&self, _line: &str, offers: &mut Offers<'_>) -> Result<(), AllocError> {
        for variable in &self.variables {
            offers.offer(variable.name.as_str())?;
        }
        for function in FUNCTIONS {
            offers.offer(function)?;
        }
        Ok(())
    }

    fn highlight(&self, line: &str, painter: &mut Painter) -> Result<(), AllocError> {
        let alloc = painter.alloc();
        let mut start: usize = 0;
        for token in &tokens(alloc, line)? {
            let end = start.saturating_add(token.text.len());
            match token.kind {
                TokenKind::Number => painter.paint(start..end, Style::cyan())?,
                TokenKind::Name if FUNCTIONS.contains(&token.text) => {
                    painter.paint(start..end, Style::blue().bold())?;
                }
                TokenKind::Name if !self.has(token.text) => {
                    painter.paint(start..end, Style::red())?;
                }
                _ => {}
            }
            start = end;
        }
        let pairs = common_pairs(alloc)?;
        painter.paint_brackets(pairs.as_slice(), line, Style::plain().reversed())
    }

    fn validate(&self, alloc: Global, line: &str) -> Result<Validation, AllocError> {
        let pairs = common_pairs(alloc)?;
        NestedLines { pairs }.validate(alloc, line)
    }

    fn answer(&mut self, alloc: Global, line: &str) -> Result<Option<String>, AllocError> {
        let answer = match self.calculate(alloc, line) {
            Ok(value) => format!(in alloc; "{value}")?,
            Err(fault) => format!(in alloc; "{fault}")?,
        };
        Ok(Some(visible(alloc, answer.as_str())?))
    }
}

fn main(rt: HostRuntime) -> Result<(), anyhow::Error> {
    let arguments = Arguments::read(rt)?;
    let mut prompt = Prompt::open(rt, "calc> ")?;
    prompt.show_rows("  ... ")?;
    if let Some(path) = arguments.own.as_slice().first() {
        prompt.keep_history(path.as_str(), 1000)?;
    }
    let mut calculator = Calculator {
        variables: Vec::new(rt.alloc()),
    };
    let _end = prompt.run(&mut calculator)?;
    Ok(())
}
