// The checks of a stage's buffers, in the order estimates, word.
ghost use Rattle.std.specs.Prelude.{◌≡◌, length, not, position};
ghost use Rattle.words.specs.Buffers.{checked, either};
ghost use Rattle.stage_laws.specs.Promises.{length_refusal, fits_column, first_large};

use crate::columns::Columns;
use chains::chain::Estimate;
use words::fault::{Fault, Kind, Layer};

// Words have this as a method of a buffer of bytes. One of a length alone would be these lines, with a layer to be handed in.
fn check_length(len: usize, wanted: usize) -> Result<(), Fault>
    ensures { result ≡ checked (length_refusal wanted len) }
{
    if len == wanted {
        Ok(())
    } else {
        Err(Fault::new(Kind::WrongLength, Layer::Pile, len))
    }
}

// Whether a column's label is a symbol and its harm lies below the inner distance.
fn fits(symbols: usize, inner: u8, estimate: Option<Estimate>) -> bool
    ensures { result ≡ fits_column symbols inner estimate }
{
    estimate.is_none_or(|e| usize::from(e.label) < symbols && e.harm < usize::from(inner))
}

impl Columns<'_> {
    fn first_large(&self, symbols: usize) -> Option<usize>
        ensures { result ≡ position (λ e. not (fits_column symbols self.now.inner e)) self.now.estimates.now }
    {
        self.estimates
            .iter()
            .position(|estimate| !fits(symbols, self.inner, *estimate))
    }

    fn check_contents(&self, symbols: usize) -> Result<(), Fault>
        ensures { result ≡ checked (first_large symbols self.now.inner 0 self.now.estimates.now) }
    {
        match self.first_large(symbols) {
            None => Ok(()),
            Some(j) => Err(Fault::new(Kind::TooLarge, Layer::Pile, j)),
        }
    }

    /// The checks of a choice: lengths first, and then the least column that does not fit.
    pub(crate) fn check(&self, symbols: usize, len: usize, word: &[u8]) -> Result<(), Fault>
        ensures { result ≡ checked (either (length_refusal len (length self.now.estimates.now)) (either (length_refusal len (length word.now)) (first_large symbols self.now.inner 0 self.now.estimates.now))) }
    {
        check_length(self.estimates.len(), len)?;
        check_length(word.len(), len)?;
        self.check_contents(symbols)
    }
}
