// What the other decoder is given, and what it answers.
use crate::bits::Bits;
use std::alloc::{AllocError, Global};

/// A word as it is read: its cells, which of them are readable, and how many are blank.
#[derive(Drop)]
pub(crate) struct Reading {
    pub(crate) cells: Bits,
    pub(crate) readable: Bits,
    pub(crate) blanks: usize,
}

/// A codeword that is near enough, its harm and its message.
#[derive(PartialEq, Eq, Debug, Drop)]
pub(crate) struct Answer {
    pub(crate) harm: usize,
    pub(crate) word: Vec<u8>,
    pub(crate) message: Vec<u8>,
}

impl Reading {
    pub(crate) fn new(heap: Global, word: &[u8], marks: &[u8]) -> Result<Reading, AllocError> {
        let readable: Vec<u8> = marks.iter().map(|mark| u8::from(*mark == 0)).collect(heap)?;
        Ok(Reading {
            cells: Bits::of(heap, word)?,
            readable: Bits::of(heap, readable.as_slice())?,
            blanks: marks.iter().filter(|mark| **mark != 0).count(),
        })
    }

    /// Twice the readable cells that a codeword has otherwise, and the blanks.
    pub(crate) fn harm(&self, codeword: &Bits) -> usize {
        self.cells
            .differences(codeword, &self.readable)
            .saturating_mul(2)
            .saturating_add(self.blanks)
    }
}
