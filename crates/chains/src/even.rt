// The chain of all words of n cells: first whether the number of ones is odd, then which word it is.
ghost use Rattle.std.specs.Prelude.{◌≡◌, ◌-◌, ◌<◌, ◌≤◌, [], ◌∷◌, length, take, None, MatchResult};
ghost use Rattle.chains.specs.Bits.{spelled, total, parity};
ghost use Rattle.chains.specs.Even.{EvenRange, EvenMeaning, even_widths, even_word, even_chain, filled};
ghost use Rattle.chains.specs.Model.{Cells, at_stage};
ghost use Rattle.chains.specs.Promises.{Estimates};
ghost use Rattle.chains.specs.Refusals.{outside, RowFits};
ghost use Rattle.chains.specs.EvenWords.{even_lawful};
ghost use Rattle.chains.specs.Either.{never_refused};

use crate::chain::{Chain, Estimate};
use crate::checks::{Frame, check_stage};
use crate::reading::Reading;
use words::bits::{spell, write_bits};
use words::fault::{Fault, Kind, Layer};

/// All words of n cells, from 2 to 9: two stages, of distance 1 and 2.
#[derive(Clone, Copy)]
pub struct Even {
    n: u8,
    ghost range: { EvenRange n },
}

// That a reading has n cells stands in each contract that needs it: it is a fact of the chain and of the reading, and neither
// holds the other.
impl Even {
    /// The chain of n cells, or a refusal where n is not from 2 to 9.
    pub fn new(n: u8) -> Result<Self, Fault>
        ensures made { MatchResult result (λ h. (h.n ≡ n) × EvenRange n) (λ f. (EvenRange n → ⊥) × (f ≡ outside)) }
        ensures meaning { EvenRange n → EvenMeaning n }
    {
        meaning_stands(n);
        if (2..=9).contains(&n) {
            Ok(Even { n })
        } else {
            Err(Fault::new(Kind::OutsideKind, Layer::Chain, 0))
        }
    }

    fn widths(&self) -> [u8; 2]
        ensures { result ≡ even_widths self.now.n }
    {
        [1, self.n - 1]
    }

    // Writes the word of a row: the bits of label 2, and then the cell that makes label 1 the exclusive or of all.
    fn lay(&self, labels: &[u8], cells: &mut [u8])
        requires { RowFits self.now.n 2 (at_stage (even_widths self.now.n)) labels.now cells.old }
        ensures { cells.new ≡ even_word self.now.n labels.now }
    {
        let last = usize::from(self.n) - 1;
        write_bits(u16::from(labels[1]), &mut cells[..last]);
        cells[last] = labels[0] ^ parity_of(&cells[..last]);
    }

    // The number that the first n - 1 of some cells or marks spell.
    fn spell_front(&self, cells: &[u8]) -> u8
        requires { Cells self.now.n cells.now }
        ensures { result ≡ spelled (take (self.now.n - 1) cells.now) }
    {
        spell(&cells[..usize::from(self.n) - 1]) as u8
    }

    // The number that the first n - 1 cells spell, once the blank ones are turned where `flip` is 1.
    fn spell_turned(&self, flip: u8, reading: &Reading<'_>) -> u8
        requires { (length reading.now.cells.now ≡ self.now.n) × (flip < 2) }
        ensures { result ≡ spelled (take (self.now.n - 1) (filled flip reading.now.cells.now reading.now.marks.now)) }
    {
        let number = self.spell_front(reading.cells);
        if flip == 0 {
            number
        } else {
            number ^ self.spell_front(reading.marks)
        }
    }

    // Only a reading without a blank has harm below 1 against some word: its own.
    fn estimate_first(&self, reading: &Reading<'_>) -> Option<Estimate>
        requires { length reading.now.cells.now ≡ self.now.n }
        ensures { Estimates (even_chain self.now.n) 1 [] reading.now.cells.now reading.now.marks.now result }
    {
        if ones_of(reading.marks) == 0 {
            let label = parity_of(reading.cells);
            Some(Estimate { label, harm: 0 })
        } else {
            None
        }
    }

    // One blank cell takes whatever makes `odd` the exclusive or of all. Without one the reading must be right as it
    // stands, and two blanks lie too far.
    fn estimate_second(&self, odd: u8, reading: &Reading<'_>) -> Option<Estimate>
        requires { (length reading.now.cells.now ≡ self.now.n) × (odd < 2) }
        ensures { Estimates (even_chain self.now.n) 2 (odd ∷ []) reading.now.cells.now reading.now.marks.now result }
    {
        let blanks = ones_of(reading.marks);
        let flip = odd ^ parity_of(reading.cells);
        if blanks < usize::from(flip) || 1 < blanks {
            return None;
        }
        let label = self.spell_turned(flip, reading);
        Some(Estimate {
            label,
            harm: blanks,
        })
    }
}

fn meaning_stands(n: u8)
    ensures { EvenRange n → EvenMeaning n }
{}

#[tactic(auto, using(crate::proofs::Sums::total_is))]
fn ones_of(bits: &[u8]) -> usize
    requires { length bits.now ≤ 9 }
    ensures { result ≡ total bits.now }
{
    bits.iter().map(|bit| usize::from(*bit)).sum()
}

#[tactic(auto, using(crate::proofs::Sums::parity_is))]
fn parity_of(bits: &[u8]) -> u8
    requires { Cells (length bits.now) bits.now }
    ensures { result ≡ parity bits.now }
{
    bits.iter().fold(0, |odd, bit| odd ^ *bit)
}

impl Chain for Even {
    ghost model = { λ h. even_chain h.n };

    // its numbers are those of its kind, by its type
    ghost refusal = { λ _. None };

    ghost lawful = { λ h _. even_lawful h.n h.range };

    ghost one_fault = { λ _ f due. never_refused f due };

    fn check(&self) -> Result<(), Fault> {
        Ok(())
    }

    fn breadth(&self) -> usize {
        usize::from(self.n)
    }

    fn stages(&self) -> usize {
        2
    }

    fn width(&self, stage: usize) -> Result<usize, Fault> {
        check_stage(2, stage)?;
        Ok(usize::from(self.widths()[stage - 1]))
    }

    fn distance(&self, stage: usize) -> Result<usize, Fault> {
        check_stage(2, stage)?;
        Ok(stage)
    }

    fn word_of(&self, labels: &[u8], cells: &mut [u8]) -> Result<(), Fault> {
        let frame = Frame {
            breadth: usize::from(self.n),
            widths: &self.widths(),
        };
        frame.check_row(labels, cells)?;
        self.lay(labels, cells);
        Ok(())
    }

    fn estimate(
        &self,
        stage: usize,
        labels: &[u8],
        cells: &[u8],
        marks: &[u8],
    ) -> Result<Option<Estimate>, Fault> {
        let frame = Frame {
            breadth: usize::from(self.n),
            widths: &self.widths(),
        };
        frame.check_reading(stage, labels, cells, marks)?;
        let reading = Reading { cells, marks };
        // Two stages with a rule each, which closures would say no more plainly.
        if stage == 1 {
            Ok(self.estimate_first(&reading))
        } else {
            Ok(self.estimate_second(labels[0], &reading))
        }
    }
}
