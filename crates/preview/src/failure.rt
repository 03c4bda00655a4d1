// What ends the program early, as standard error tells it.
use crate::form::Unfit;
use script::error::RunError;
use std::error::Error;
use std::io;
use thiserror::Error;

#[derive(Debug, Drop, Error)]
pub enum Failure {
    #[error("the arguments are no text")]
    NoArguments,
    #[error("{0}")]
    Usage(&'static str),
    #[error("refused 14: the size is 12x80, 16x64, 24x64 or 24x80")]
    NoSize,
    #[error("{0}: {1}")]
    File(String, io::Error),
    #[error(transparent)]
    Unfit(#[from] Unfit),
    #[error(transparent)]
    Run(#[from] RunError),
    #[error(transparent)]
    Io(#[from] io::Error),
}
