// A decoder for few messages: it looks at each codeword.
use crate::bits::Bits;
use crate::plan::{Plan, bits_of};
use crate::reading::{Answer, Reading};
use std::alloc::{AllocError, Global};

/// All codewords, in the order of their messages as numbers.
#[derive(Drop)]
pub(crate) struct Exhaustive {
    codewords: Vec<Bits>,
    message_bits: usize,
    cells: usize,
}

impl Exhaustive {
    pub(crate) fn new(heap: Global, plan: &Plan) -> Result<Exhaustive, AllocError> {
        let mut codewords = Vec::new(heap);
        for word in &plan.codewords(heap)? {
            codewords
                .push(Bits::of(heap, word.as_slice())?)
                .map_err(AllocError::from)?;
        }
        Ok(Exhaustive {
            codewords,
            message_bits: plan.message_bits(),
            cells: plan.cells(),
        })
    }

    /// The codeword with the least harm, if that is below a bound.
    pub(crate) fn nearest(
        &self,
        heap: Global,
        reading: &Reading,
        bound: usize,
    ) -> Result<Option<Answer>, AllocError> {
        let least = self
            .codewords
            .iter()
            .enumerate()
            .map(|(number, codeword)| (reading.harm(codeword), number))
            .min();
        let Some((harm, number)) = least else {
            return Ok(None);
        };
        let Some(codeword) = self.codewords.get(number) else {
            return Ok(None);
        };
        if harm >= bound {
            return Ok(None);
        }
        Ok(Some(Answer {
            harm,
            word: codeword.cells(heap, self.cells)?,
            message: bits_of(heap, number, self.message_bits)?,
        }))
    }
}
