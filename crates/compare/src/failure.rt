// Why a comparison ends early.
use std::alloc::AllocError;
use thiserror::Error;
use words::fault::Fault;

#[derive(Debug, Drop, Error)]
pub(crate) enum Failure {
    /// The library and the other decoder differ, or a worked example is not what it must be: told in full.
    #[error("{0}")]
    Differs(String),
    #[error("{0}")]
    Refused(#[from] Fault),
    #[error("no such recipe was drawn")]
    NoRecipe,
    #[error("out of memory")]
    OutOfMemory(#[from(alloc)] AllocError),
}
