// Why a comparison can end early.

use std::alloc::AllocError;
use thiserror::Error;
use words::fault::Fault;

/// A chain's refusal, or more cells than there is room for. (The two comparisons share no library, and one for these lines would be no plainer.)
#[derive(Debug, Drop, Error)]
pub(crate) enum Failure {
    #[error("{0}")]
    Refused(#[from] Fault),
    #[error("no room")]
    NoRoom(#[from] AllocError),
}
