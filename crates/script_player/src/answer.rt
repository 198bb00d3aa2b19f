//! How the reading of a line ends.

ghost use Rattle.std.specs.Prelude.{IfErr, Some};
ghost use Rattle.script_player.specs.Answers.{IsAnswerTo, text_of_answer};
ghost use Rattle.script_player.specs.Written.{IsOutside};

use crate::RunFault;
use std::fmt;
use tw_lineedit::Error;

/// How the reading of a line ended.
#[derive(Debug, Drop)]
pub enum Answer {
    /// With this line.
    Line(String),
    /// With no line.
    Cancelled,
    /// With the error of this number.
    Refused(u8),
}

impl Answer {
    /// Returns the answer of an editor. Want of memory ends the run.
    pub fn new(outcome: Result<Option<String>, Error>) -> Result<Answer, RunFault>
        ensures told { IsAnswerTo outcome result }
        ensures fault { IfErr result IsOutside }
    {
        match outcome {
            Ok(Some(line)) => Ok(Answer::Line(line)),
            Ok(None) => Ok(Answer::Cancelled),
            Err(Error::Memory(_)) => Err(RunFault::Memory),
            Err(error) => Ok(Answer::Refused(error.number())),
        }
    }
}

impl fmt::Display for Answer {
    ghost output = { λ answer. Some (text_of_answer answer) };

    fn fmt<W: fmt::Write>(&self, f: &mut fmt::Formatter<W>) -> fmt::Result {
        match self {
            Answer::Line(line) => write!(f, "line {line}"),
            Answer::Cancelled => write!(f, "cancelled"),
            Answer::Refused(number) => write!(f, "refused {number}"),
        }
    }
}
