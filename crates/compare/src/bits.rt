// Rows of cells as bits, so that words are compared 64 cells at a time.
use std::alloc::{AllocError, Global};

/// A row of bits, 64 to a part.
#[derive(Drop)]
pub(crate) struct Bits {
    parts: Vec<u64>,
}

/// The part of at most 64 cells, the first the last bit.
fn part_of(cells: &[u8]) -> u64 {
    cells.iter().rev().fold(0, |all: u64, cell| {
        all.wrapping_mul(2) | u64::from(*cell != 0)
    })
}

impl Bits {
    /// The bits of a row of cells: 1 where a cell is not 0.
    pub(crate) fn of(heap: Global, cells: &[u8]) -> Result<Bits, AllocError> {
        Ok(Bits {
            parts: cells.chunks(64).map(part_of).collect(heap)?,
        })
    }

    /// As many zeros.
    pub(crate) fn zeros(heap: Global, len: usize) -> Result<Bits, AllocError> {
        Ok(Bits {
            parts: vec![in heap; 0; len.div_ceil(64)]?,
        })
    }

    pub(crate) fn copy(&self, heap: Global) -> Result<Bits, AllocError> {
        Ok(Bits {
            parts: Vec::from_slice(heap, self.parts.as_slice())?,
        })
    }

    pub(crate) fn has(&self, place: usize) -> bool {
        self.parts
            .get(place / 64)
            .is_some_and(|part| part >> (place % 64) & 1 == 1)
    }

    /// The first bits, as cells.
    pub(crate) fn cells(&self, heap: Global, len: usize) -> Result<Vec<u8>, AllocError> {
        (0..len)
            .map(|place| u8::from(self.has(place)))
            .collect(heap)
    }

    /// Adds another row, which turns the bits over where that has a 1.
    pub(crate) fn add(&mut self, other: &Bits) {
        for (x, y) in self.parts.iter_mut().zip(&other.parts) {
            *x ^= *y;
        }
    }

    /// In how many places that a third row has two rows differ.
    pub(crate) fn differences(&self, other: &Bits, among: &Bits) -> usize {
        self.parts
            .iter()
            .zip(&other.parts)
            .zip(&among.parts)
            .fold(0, |all: usize, ((x, y), among)| {
                all.wrapping_add(((x ^ y) & among).count_ones() as usize)
            })
    }

    /// The first 1 among the places that another row has.
    pub(crate) fn first(&self, among: &Bits) -> Option<usize> {
        self.parts
            .iter()
            .zip(&among.parts)
            .enumerate()
            .find(|(_, (x, among))| **x & **among != 0)
            .map(|(i, (x, among))| {
                i.saturating_mul(64)
                    .saturating_add((x & among).trailing_zeros() as usize)
            })
    }
}
