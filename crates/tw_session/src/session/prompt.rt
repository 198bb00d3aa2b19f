//! The prompt of an editor.

ghost use Rattle.std.specs.Prelude.{◌≡◌, codes, IfOk};

use std::alloc::{AllocError, Global};
use std::marker::Model;

/// What stands before the line.
#[derive(Debug, Drop)]
pub struct Prompt {
    /// The prompt that was set, if one was.
    own: Option<String>,
}

impl Model for Prompt {
    ghost use Rattle.std.specs.Prelude.{List, ℕ};
    ghost use Rattle.tw_session.specs.SessionView.{prompt_view};

    ghost Value = { List ℕ };

    ghost view = { λ prompt. prompt_view prompt.own };
}

impl Prompt {
    /// The prompt of a new editor.
    const DEFAULT: &'static str = "> ";

    /// Creates the default prompt. Takes no memory.
    pub fn new() -> Self
        ensures { result ≡ codes "> " }
    {
        Prompt { own: None }
    }

    /// Returns a prompt of this text.
    pub fn from_str(alloc: Global, text: &str) -> Result<Self, AllocError>
        ensures { IfOk result (λ prompt. prompt ≡ text.now) }
    {
        let text = String::from_str(alloc, text)?;
        Ok(Prompt { own: Some(text) })
    }

    /// Returns the text.
    pub fn as_str(&self) -> &str
        ensures { result.now ≡ self.now }
    {
        match &self.own {
            Some(text) => text.as_str(),
            None => Prompt::DEFAULT,
        }
    }
}
