// What the columns of a stage tell, and what they give the code at a threshold.
ghost use Rattle.std.specs.Prelude.{◌≡◌, map, length};
ghost use Rattle.stage_laws.specs.Trials.{trial_symbol, trial_mark};

use chains::chain::Estimate;

/// The inner distance of a stage, and what each column's estimate is.
#[derive(Clone, Copy)]
pub(crate) struct Columns<'a> {
    pub(crate) inner: u8,
    pub(crate) estimates: &'a [Option<Estimate>],
}

fn symbol_of(estimate: Option<Estimate>) -> u8
    ensures { result ≡ trial_symbol estimate }
{
    estimate.map_or(0, |e| e.label)
}

// A column is blank where its estimate is absent, or where its harm reaches the threshold.
fn mark_of(threshold: usize, estimate: Option<Estimate>) -> u8
    ensures { result ≡ trial_mark threshold estimate }
{
    estimate.map_or(1, |e| u8::from(e.harm >= threshold))
}

// Two loops of three lines: one that is handed a closure would need a contract for what the closure answers. Each reads by
// index, since nothing is known of what a zip of iter_mut wrote.
impl Columns<'_> {
    /// Writes the word that the code is handed.
    pub(crate) fn write_symbols(&self, word: &mut [u8])
        requires { length word.old ≡ length self.now.estimates.now }
        ensures { word.new ≡ map trial_symbol self.now.estimates.now }
    {
        for (j, symbol) in word.iter_mut().enumerate() {
            *symbol = symbol_of(self.estimates[j]);
        }
    }

    /// Writes the marks that the code is handed at a threshold.
    pub(crate) fn write_marks(&self, threshold: usize, marks: &mut [u8])
        requires { length marks.old ≡ length self.now.estimates.now }
        ensures { marks.new ≡ map (trial_mark threshold) self.now.estimates.now }
    {
        for (j, mark) in marks.iter_mut().enumerate() {
            *mark = mark_of(threshold, self.estimates[j]);
        }
    }
}
