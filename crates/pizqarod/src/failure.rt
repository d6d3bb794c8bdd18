// Why a command is not done.

use crate::refusal::Refusal;
use recipe_texts::text::TextError;
use std::alloc::AllocError;
use thiserror::Error;
use words::fault::Fault;

#[derive(Debug, Drop, Error)]
pub(crate) enum Failure {
    #[error("not hexadecimal text of whole bytes")]
    NotHexadecimal,
    #[error("'{0}' is no cell: 0, 1 and, in a word, ?")]
    NotACell(char),
    #[error("'{0}' is no change of a cell of the word: a number, or a number and ?")]
    NoChange(String),
    #[error("{0}")]
    Refused(Refusal),
    #[error("out of memory")]
    OutOfMemory(#[from(alloc)] AllocError),
}

impl From<Fault> for Failure {
    fn from(fault: Fault) -> Self {
        Failure::Refused(Refusal(fault))
    }
}

impl From<TextError> for Failure {
    fn from(error: TextError) -> Self {
        match error {
            TextError::Refused(fault) => Failure::from(fault),
            TextError::NotHexadecimal => Failure::NotHexadecimal,
        }
    }
}
