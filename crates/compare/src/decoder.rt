// The other decoder: one of two ways to decide, by the plan's size.
use crate::elimination::Elimination;
use crate::exhaustive::Exhaustive;
use crate::plan::Plan;
use crate::reading::{Answer, Reading};
use crate::trials::fewest_blanks;
use std::alloc::{AllocError, Global};

/// The most message bits of which all messages are gone through.
pub(crate) const FEW_BITS: usize = 11;

#[derive(Drop)]
pub(crate) enum Decoder {
    Exhaustive(Exhaustive),
    Elimination(Elimination),
}

impl Decoder {
    pub(crate) fn new(heap: Global, plan: &Plan) -> Result<Decoder, AllocError> {
        if plan.message_bits() <= FEW_BITS {
            Ok(Decoder::Exhaustive(Exhaustive::new(heap, plan)?))
        } else {
            Ok(Decoder::Elimination(Elimination::new(heap, plan)?))
        }
    }

    /// How few blanks a word may have so that it is decided soon.
    pub(crate) fn fewest_blanks(&self, plan: &Plan) -> usize {
        match self {
            Decoder::Exhaustive(_) => 0,
            Decoder::Elimination(_) => fewest_blanks(plan.cells(), plan.reach()),
        }
    }

    /// The codeword with harm below a bound that is at most the reach, if there is one.
    pub(crate) fn nearest(
        &self,
        heap: Global,
        reading: &Reading,
        bound: usize,
    ) -> Result<Option<Answer>, AllocError> {
        match self {
            Decoder::Exhaustive(decoder) => decoder.nearest(heap, reading, bound),
            Decoder::Elimination(decoder) => decoder.nearest(heap, reading, bound),
        }
    }
}

#[cfg(test)]
mod tests {
    use super::*;
    use std::test::Fail;

    // Two cells a column, and reach 2: the labels a, b stand as b and then a + b. Stage 1 repeats the first bit, stage 2 is open.
    fn plan(heap: Global) -> Result<Plan, Fail> {
        let plan = Plan::read(heap, &[0x11, 0, 4, 2, 0, 1, 0, 0, 4])?;
        plan.ok_or_else(|| Fail::new("a recipe"))
    }

    // The second cell is blank; the first columns' sums show the label 1, and with it the blank is 1.
    #[test]
    fn both_undo_a_blank(rt: HostRuntime) -> Result<(), Fail> {
        let heap = rt.alloc();
        let plan = plan(heap)?;
        let reading = Reading::new(heap, &[0, 0, 1, 0, 1, 0, 0, 1], &[0, 1, 0, 0, 0, 0, 0, 0])?;
        let answer = Answer {
            harm: 1,
            word: vec![in heap; 0, 1, 1, 0, 1, 0, 0, 1]?,
            message: vec![in heap; 1, 0, 1, 1, 0]?,
        };
        let exhaustive = Exhaustive::new(heap, &plan)?.nearest(heap, &reading, 2)?;
        let elimination = Elimination::new(heap, &plan)?.nearest(heap, &reading, 2)?;
        assert!(rt; exhaustive.as_ref() == Some(&answer));
        assert!(rt; elimination.as_ref() == Some(&answer));
        Ok(())
    }

    // One cell is turned over, which is harm 2 against several codewords.
    #[test]
    fn both_refuse_a_flip(rt: HostRuntime) -> Result<(), Fail> {
        let heap = rt.alloc();
        let plan = plan(heap)?;
        let reading = Reading::new(heap, &[1, 1, 1, 0, 1, 0, 0, 1], &[0; 8])?;
        let exhaustive = Exhaustive::new(heap, &plan)?.nearest(heap, &reading, 2)?;
        let elimination = Elimination::new(heap, &plan)?.nearest(heap, &reading, 2)?;
        assert!(rt; exhaustive.is_none());
        assert!(rt; elimination.is_none());
        Ok(())
    }

    // Eight columns of eight cells, the word of zeros with three cells turned over and one blank: among 2 to the 45 messages.
    #[test]
    fn elimination_finds_wrong_cells(rt: HostRuntime) -> Result<(), Fail> {
        let heap = rt.alloc();
        let bytes = [0x13, 0, 8, 2, 0, 1, 1, 0, 5, 1, 0, 7, 0, 0, 8];
        let Some(plan) = Plan::read(heap, &bytes)? else {
            return Err(Fail::new("a recipe"));
        };
        let mut word = [0; 64];
        let mut marks = [0; 64];
        for p in [0, 9, 18] {
            word[p] = 1;
        }
        marks[27] = 1;
        let reading = Reading::new(heap, &word, &marks)?;
        let answer = Elimination::new(heap, &plan)?.nearest(heap, &reading, 8)?;
        assert!(rt;
            answer.is_some_and(|answer| answer.harm == 7
                && answer.word.as_slice() == [0; 64].as_slice())
        );
        Ok(())
    }
}
