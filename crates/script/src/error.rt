// What ends a run: a script that does not fit, or input or output that fails.
ghost use Rattle.script.specs.Errors.{IsOutOfMemory};

use crate::word::Word;
use std::alloc::{AllocError, AllocFailed};
use std::error::Error;
use std::{fmt, io};
use thiserror::Error;

#[derive(Clone, Copy, Debug, Error)]
pub enum Problem {
    #[error("no line that this program knows begins so")]
    UnknownLine,
    #[error("there is no line yet: write 'monitor sync' or 'monitor async' first")]
    NoLineYet,
    #[error("there is no screen yet: write a 'screen' line first")]
    NoScreenYet,
    #[error("after 'monitor' stands 'sync' or 'async'")]
    NoLineKind,
    #[error("no screen: 'words', 'bits', 'turn' or 'window' is wanted")]
    NoScreenKind,
    #[error("no octet: two hexadecimal digits are wanted")]
    NoOctet,
    #[error("no number: at most nine decimal digits are wanted")]
    NoNumber,
    #[error("no protection mark: 0 or 1 is wanted")]
    NoMark,
    #[error("no size: rows and columns are wanted, as 12x80")]
    NoSize,
    #[error("too many layers: at most four stand over a store")]
    TooManyLayers,
    #[error("left over: the line should end before it")]
    LeftOver,
}

// What is wrong in a line of a script, at a word or, where there is none, at the line's end.
#[derive(Clone, Copy, Debug)]
pub struct ScriptError {
    pub line: u64,
    pub word: Word,
    pub problem: Problem,
}

// By hand, since there are two texts: a derive has one.
impl fmt::Display for ScriptError {
    fn fmt<W: fmt::Write>(&self, f: &mut fmt::Formatter<W>) -> fmt::Result {
        let line = self.line;
        let word = &self.word;
        let problem = &self.problem;
        if word.bytes().is_empty() {
            write!(f, "line {line}: {problem}")
        } else {
            write!(f, "line {line}: '{word}': {problem}")
        }
    }
}

impl Error for ScriptError {}

#[derive(Debug, Drop, Error)]
pub enum RunError {
    #[error(transparent)]
    Script(#[from] ScriptError),
    #[error(transparent)]
    Io(#[from] io::Error),
}

impl From<AllocError> for RunError {
    ghost from_gives = { λ _ r. IsOutOfMemory r };

    fn from(e: AllocError) -> RunError {
        RunError::Io(io::Error::from(e))
    }
}

impl<T: Drop> From<AllocFailed<T>> for RunError {
    ghost from_gives = { λ _ r. IsOutOfMemory r };

    fn from(e: AllocFailed<T>) -> RunError {
        RunError::Io(io::Error::from(e))
    }
}
