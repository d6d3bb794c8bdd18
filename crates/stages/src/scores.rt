// The score of a codeword.
ghost use Rattle.std.specs.Prelude.{◌≡◌, ◌^◌, ◌<◌, sum_by, zip};
ghost use Rattle.stage_laws.specs.Rule.{score_at};

use crate::columns::Columns;
use chains::chain::Estimate;

// A column that agrees scores its harm, one that differs twice the inner distance less its harm, and an absent one the inner distance.
fn score_at(inner: u8, estimate: Option<Estimate>, symbol: u8) -> usize
    ensures { result ≡ score_at inner estimate symbol }
{
    let inner = usize::from(inner);
    match estimate {
        None => inner,
        Some(e) if e.label == symbol => e.harm,
        Some(e) => (2 * inner).saturating_sub(e.harm),
    }
}

impl Columns<'_> {
    /// The score of a word, summed over the columns.
    pub(crate) fn score(&self, word: &[u8]) -> usize
        requires { sum_by (λ p. score_at self.now.inner p.0 p.1) (zip self.now.estimates.now word.now) < 2 ^ 64 }
        ensures { result ≡ sum_by (λ p. score_at self.now.inner p.0 p.1) (zip self.now.estimates.now word.now) }
    {
        let inner = self.inner;
        self.estimates
            .iter()
            .zip(word)
            .map(|(estimate, symbol)| score_at(inner, *estimate, *symbol))
            .sum()
    }
}
