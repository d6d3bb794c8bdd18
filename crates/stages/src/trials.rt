// The trials of a stage, one for each threshold.
ghost use Rattle.std.specs.Prelude.{◌≡◌, ℕ, cond, List, length, Some, None, IfSome, nat_lt};
ghost use Rattle.words.specs.Soundness.{Sound};
ghost use Rattle.stage_laws.specs.Rule.{Accepted as is_accepted, Chosen};
ghost use Rattle.stage_laws.specs.Trials.{Fitting, Tried};

use crate::columns::Columns;
use codes::code::Code;

// The score of a candidate that is the choice: one below the inner times the outer distance.
fn deciding(score: usize, limit: usize) -> Option<usize>
    ensures { result ≡ cond (nat_lt score limit) (Some score) None }
{
    if score < limit { Some(score) } else { None }
}

/// The candidate that is the choice, and its score.
#[derive(Clone, Copy)]
pub(crate) struct Accepted<'w> {
    pub(crate) candidate: &'w [u8],
    pub(crate) score: usize,
}

impl Columns<'_> {
    // One trial: the score of the codeword that the code finds at a threshold, if that is the choice.
    fn trial<C: Code>(
        &self,
        code: &C,
        threshold: usize,
        candidate: &mut [u8],
        marks: &mut [u8],
    ) -> Option<usize>
        requires sound { Sound C.Code.refusal code.now }
        requires fits { Fitting (C.Code.model code.now) self.now.inner self.now.estimates.now }
        requires candidate { length candidate.old ≡ length self.now.estimates.now }
        requires marks { length marks.old ≡ length self.now.estimates.now }
        ensures { Tried (C.Code.model code.now) self.now.inner self.now.estimates.now threshold candidate.new result }
    {
        let limit = usize::from(self.inner) * code.distance();
        self.write_symbols(candidate);
        self.write_marks(threshold, marks);
        code.correct(candidate, marks).ok()?;
        deciding(self.score(candidate), limit)
    }

    /// The first candidate that is the choice.
    pub(crate) fn search<'w, C: Code>(
        &self,
        code: &C,
        candidate: &'w mut [u8],
        marks: &mut [u8],
    ) -> Option<Accepted<'w>>
        requires sound { Sound C.Code.refusal code.now }
        requires fits { Fitting (C.Code.model code.now) self.now.inner self.now.estimates.now }
        requires candidate { length candidate.old ≡ length self.now.estimates.now }
        requires marks { length marks.old ≡ length self.now.estimates.now }
        ensures found { IfSome result (λ a. is_accepted (C.Code.model code.now) self.now.inner self.now.estimates.now a.candidate.now a.score) }
        ensures none { result ≡ None → (u : List ℕ) → Chosen (C.Code.model code.now) self.now.inner self.now.estimates.now u → ⊥ }
    {
        let mut threshold = 1;
        // The trials end at the first codeword that passes: at most one is the choice, so that no later threshold could find another,
        // and what the loop yields is the choice.
        'trials: loop {
            if threshold > usize::from(self.inner) {
                break 'trials None;
            }
            if let Some(score) = self.trial(code, threshold, candidate, marks) {
                break 'trials Some(Accepted { candidate, score });
            }
            threshold += 1;
        }
    }
}
