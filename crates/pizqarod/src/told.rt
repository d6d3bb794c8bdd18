// A call of a memory with its answer, as it prints.

use crate::picture::Payload;
use crate::refusal::Refusal;
use lives::call::{Answer, Call};
use std::fmt;

/// A call, its answer, and the bytes that a read gave.
#[derive(Clone, Copy)]
pub(crate) struct Told<'a> {
    pub(crate) call: Call<'a>,
    pub(crate) answer: Answer,
    pub(crate) payload: &'a [u8],
}

// What a call does.
fn verb(call: Call<'_>) -> &'static str {
    match call {
        Call::Write { .. } => "write",
        Call::Read { .. } => "read",
        Call::Patrol { .. } => "patrol",
        Call::Wear { .. } => "wear",
    }
}

impl fmt::Display for Told<'_> {
    fn fmt<W: fmt::Write>(&self, f: &mut fmt::Formatter<W>) -> fmt::Result {
        let verb = verb(self.call);
        match (self.call, self.answer) {
            (_, Err(fault)) => {
                let refusal = Refusal(fault);
                write!(f, "{verb}: {refusal}")
            }
            (Call::Write { page, .. }, Ok(blanks)) => {
                write!(f, "{verb} page {page}: {blanks} of its cells blank")
            }
            (Call::Read { page }, Ok(harm)) => {
                let bytes = Payload(self.payload);
                write!(f, "{verb} page {page}: harm {harm}, {bytes}")
            }
            (Call::Patrol { page }, Ok(harm)) => write!(f, "{verb} page {page}: harm {harm}"),
            (Call::Wear { page, cell, state }, Ok(_)) => {
                write!(f, "{verb} page {page}, cell {cell}: {state}")
            }
        }
    }
}
