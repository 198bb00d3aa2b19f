//! Expressions of whole numbers: `+ - * / %`, brackets, names of variables, and the functions `abs`, `sign`, `square`.

use std::alloc::{AllocError, AllocFailed, Global};
use thiserror::Error;

/// The names of the functions.
pub const FUNCTIONS: [&str; 3] = ["abs", "sign", "square"];

/// Why an expression has no value.
#[derive(Debug, Drop, Error)]
pub enum Fault {
    #[error("something is missing")]
    Missing,
    #[error("{0} is not known")]
    Unknown(String),
    #[error("it is too large")]
    TooLarge,
    #[error("nothing can be divided by 0")]
    DividedByZero,
    #[error(transparent)]
    Memory(#[from] AllocError),
}

impl<T: Drop> From<AllocFailed<T>> for Fault {
    fn from(refused: AllocFailed<T>) -> Fault {
        Fault::Memory(AllocError::from(refused))
    }
}

/// The kind of a token.
#[derive(Clone, Copy, Debug, PartialEq, Eq)]
pub enum TokenKind {
    Space,
    Number,
    Name,
    Sign,
}

/// A token of an expression.
#[derive(Clone, Copy, Debug)]
pub struct Token<'line> {
    pub text: &'line str,
    pub kind: TokenKind,
}

/// What waits for a value behind it.
#[derive(Clone, Copy, Debug, PartialEq, Eq)]
enum Waiting {
    Open,
    Sum,
    Difference,
    Product,
    Quotient,
    Remainder,
    Negation,
    Absolute,
    Sign,
    Square,
}

/// A named value.
#[derive(Drop)]
pub struct Variable {
    pub name: String,
    pub value: i64,
}

/// The values of an expression, and what waits for them.
#[derive(Drop)]
struct Stack<'a> {
    alloc: Global,
    variables: &'a [Variable],
    values: Vec<i64>,
    waiting: Vec<Waiting>,
    /// True if a value comes next.
    wants_value: bool,
}

/// Returns the kind of a token that goes on with a character, or begins with it.
fn kind_behind(kind: TokenKind, c: char) -> TokenKind {
    match c {
        '0'..='9' if kind == TokenKind::Name => TokenKind::Name,
        '0'..='9' => TokenKind::Number,
        _ if c.is_whitespace() => TokenKind::Space,
        _ if c.is_alphabetic() || c == '_' => TokenKind::Name,
        _ => TokenKind::Sign,
    }
}

/// Returns the tokens of a line, one behind the other.
pub fn tokens(alloc: Global, line: &str) -> Result<Vec<Token<'_>>, AllocError> {
    let mut tokens = Vec::new(alloc);
    let mut start = 0;
    let mut kind = TokenKind::Space;
    for (at, c) in line.char_indices() {
        let next = kind_behind(kind, c);
        if next != kind || kind == TokenKind::Sign {
            let text = line.get(start..at).unwrap_or("");
            tokens.push(Token { text, kind })?;
            start = at;
            kind = next;
        }
    }
    let text = line.get(start..).unwrap_or("");
    tokens.push(Token { text, kind })?;
    Ok(tokens)
}

impl Waiting {
    /// Returns how tightly it binds.
    fn rank(self) -> u8 {
        match self {
            Waiting::Open => 0,
            Waiting::Sum | Waiting::Difference => 1,
            Waiting::Product | Waiting::Quotient | Waiting::Remainder => 2,
            Waiting::Negation => 3,
            Waiting::Absolute | Waiting::Sign | Waiting::Square => 4,
        }
    }
}

/// Returns the function of this name.
fn function(name: &str) -> Option<Waiting> {
    match name {
        "abs" => Some(Waiting::Absolute),
        "sign" => Some(Waiting::Sign),
        "square" => Some(Waiting::Square),
        _ => None,
    }
}

impl Stack<'_> {
    /// Returns the fault of a text that is not known.
    fn unknown(&self, text: &str) -> Fault {
        match String::from_str(self.alloc, text) {
            Ok(text) => Fault::Unknown(text),
            Err(refused) => Fault::Memory(refused),
        }
    }

    /// Pushes a value.
    fn push(&mut self, value: i64) -> Result<(), Fault> {
        if !self.wants_value {
            return Err(Fault::Missing);
        }
        self.wants_value = false;
        self.values.push(value)?;
        Ok(())
    }

    /// Does what waits last with the last values.
    fn apply(&mut self, waiting: Waiting) -> Result<(), Fault> {
        let last = self.values.pop().ok_or(Fault::Missing)?;
        let value = match waiting {
            Waiting::Open => return Err(Fault::Missing),
            Waiting::Negation => last.checked_neg(),
            Waiting::Absolute => last.checked_abs(),
            Waiting::Sign => Some(last.signum()),
            Waiting::Square => last.checked_mul(last),
            _ => {
                let before = self.values.pop().ok_or(Fault::Missing)?;
                match waiting {
                    Waiting::Sum => before.checked_add(last),
                    Waiting::Difference => before.checked_sub(last),
                    Waiting::Product => before.checked_mul(last),
                    _ if last == 0 => return Err(Fault::DividedByZero),
                    Waiting::Quotient => before.checked_div(last),
                    _ => before.checked_rem(last),
                }
            }
        };
        self.values.push(value.ok_or(Fault::TooLarge)?)?;
        Ok(())
    }

    /// Returns what waits last, if it binds at least as tightly as this rank.
    fn last_from(&self, rank: u8) -> Option<Waiting> {
        match self.waiting.as_slice().last() {
            Some(waiting) if waiting.rank() >= rank => Some(*waiting),
            _ => None,
        }
    }

    /// Does all that waits and binds at least as tightly as this rank.
    fn apply_from(&mut self, rank: u8) -> Result<(), Fault> {
        for _ in 0..self.waiting.len() {
            let Some(waiting) = self.last_from(rank) else {
                break;
            };
            self.apply(waiting)?;
            let _applied = self.waiting.pop();
        }
        Ok(())
    }

    /// Takes a sign between two values.
    fn take_operator(&mut self, waiting: Waiting) -> Result<(), Fault> {
        if self.wants_value {
            return Err(Fault::Missing);
        }
        self.apply_from(waiting.rank())?;
        self.wants_value = true;
        self.waiting.push(waiting)?;
        Ok(())
    }

    /// Takes a closing bracket.
    fn close(&mut self) -> Result<(), Fault> {
        if self.wants_value {
            return Err(Fault::Missing);
        }
        self.apply_from(1)?;
        self.waiting.pop().map(|_| ()).ok_or(Fault::Missing)
    }

    /// Takes a name.
    fn take_name(&mut self, name: &str) -> Result<(), Fault> {
        if let Some(function) = function(name) {
            self.waiting.push(function)?;
            return Ok(());
        }
        for variable in self.variables {
            if variable.name.as_str() == name {
                return self.push(variable.value);
            }
        }
        Err(self.unknown(name))
    }

    /// Takes a token.
    fn take(&mut self, token: Token<'_>) -> Result<(), Fault> {
        match (token.kind, token.text) {
            (TokenKind::Space, _) => Ok(()),
            (TokenKind::Number, text) => {
                let number = text.parse::<i64>().map_err(|_| Fault::TooLarge)?;
                self.push(number)
            }
            (TokenKind::Name, name) => self.take_name(name),
            (TokenKind::Sign, "(") => Ok(self.waiting.push(Waiting::Open)?),
            (TokenKind::Sign, ")") => self.close(),
            (TokenKind::Sign, "-") if self.wants_value => Ok(self.waiting.push(Waiting::Negation)?),
            (TokenKind::Sign, "+") => self.take_operator(Waiting::Sum),
            (TokenKind::Sign, "-") => self.take_operator(Waiting::Difference),
            (TokenKind::Sign, "*") => self.take_operator(Waiting::Product),
            (TokenKind::Sign, "/") => self.take_operator(Waiting::Quotient),
            (TokenKind::Sign, "%") => self.take_operator(Waiting::Remainder),
            (TokenKind::Sign, text) => Err(self.unknown(text)),
        }
    }
}

/// Returns the value of an expression.
pub fn value_of(alloc: Global, variables: &[Variable], line: &str) -> Result<i64, Fault> {
    let mut stack = Stack {
        alloc,
        variables,
        values: Vec::new(alloc),
        waiting: Vec::new(alloc),
        wants_value: true,
    };
    for token in &tokens(alloc, line)? {
        stack.take(*token)?;
    }
    stack.apply_from(0)?;
    stack.values.pop().ok_or(Fault::Missing)
}
