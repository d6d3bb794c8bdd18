// One chain at one stage: its estimate against a plain search.
ghost use Rattle.std.specs.Prelude.{◌≤◌};

use crate::failure::Failure;
use crate::random::Random;
use crate::tally::{Outcome, Tally};
use arrayvec::ArrayVec;
use chains::chain::{Chain, Estimate};
use std::alloc::Global;
use std::iter::repeat_n;
use words::fault::{Fault, Layer};
use words::harms::harm;

const READINGS: usize = 40;

/// The most cells of a chain, and more than the stages of any.
const CELLS: usize = 16;

/// A chain at a stage, with how many labels each of its stages has, and the room for a row, for a reading and for a
/// word that is tried.
#[derive(Drop)]
pub(crate) struct Comparison<'a, H: Chain> {
    chain: &'a H,
    stage: usize,
    ghost numbered: { 1 ≤ stage },
    sizes: ArrayVec<usize, CELLS>,
    row: ArrayVec<u8, CELLS>,
    cells: ArrayVec<u8, CELLS>,
    marks: ArrayVec<u8, CELLS>,
    word: ArrayVec<u8, CELLS>,
}

impl<'a, H: Chain> Comparison<'a, H> {
    /// A chain at one of its stages. Nothing is allocated: `collect` asks for an allocator, which an `ArrayVec` leaves unused.
    pub(crate) fn new(alloc: Global, chain: &'a H, stage: usize) -> Result<Self, Failure>
        requires { 1 ≤ stage }
    {
        let breadth = chain.breadth();
        // No label is wider than 8 bits.
        let sizes = (1..=chain.stages())
            .map(|stage| -> Result<usize, Failure> { Ok(1 << chain.width(stage)?.min(8)) })
            .try_collect(alloc)?;
        Ok(Comparison {
            chain,
            stage,
            sizes,
            row: repeat_n(0, chain.stages()).collect(alloc)?,
            cells: repeat_n(0, breadth).collect(alloc)?,
            marks: repeat_n(0, breadth).collect(alloc)?,
            word: repeat_n(0, breadth).collect(alloc)?,
        })
    }

    /// Compares readings that begin at a seed.
    pub(crate) fn run(&mut self, seed: u64) -> Result<Tally, Failure> {
        let mut random = Random(seed);
        let mut tally = Tally::default();
        for _ in 0..READINGS {
            tally.note(self.compare(random.next())?);
        }
        Ok(tally)
    }

    // One reading: a random row's word, spoiled, estimated after that row's own labels.
    fn compare(&mut self, seed: u64) -> Result<Outcome, Fault> {
        self.fill_row(0, (seed >> 16) as usize);
        self.chain.word_of(&self.row, &mut self.cells)?;
        self.spoil(seed);
        let found = self.estimate()?;
        if found != self.seek()? {
            return Ok(Outcome::Differing);
        }
        match found {
            Some(_) => Ok(Outcome::Answered),
            None => Ok(Outcome::Absent),
        }
    }

    // The chain's own answer, after the labels that the row has before the stage.
    fn estimate(&self) -> Result<Option<Estimate>, Fault> {
        let decided = self.row.get(..self.stage - 1).unwrap_or(&[]);
        self.chain
            .estimate(self.stage, decided, &self.cells, &self.marks)
    }

    // Turns some of the cells and makes some blank, the more the larger the seed's last three bits.
    fn spoil(&mut self, seed: u64) {
        let rate = seed % 8;
        let mut random = Random(seed);
        for (cell, mark) in self.cells.iter_mut().zip(self.marks.iter_mut()) {
            let drawn = random.next();
            if (drawn >> 20) % 16 < rate {
                *cell = 1 - (*cell).min(1);
            }
            *mark = u8::from((drawn >> 40) % 16 < rate);
        }
    }

    // The first row that begins with the labels before the stage and lies near enough, by trying all.
    fn seek(&mut self) -> Result<Option<Estimate>, Fault> {
        let decided = self.stage - 1;
        let distance = self.chain.distance(self.stage)?;
        for number in 0..self.rows_from(decided) {
            self.fill_row(decided, number);
            self.chain.word_of(&self.row, &mut self.word)?;
            let harm = harm(Layer::Chain, &self.cells, &self.marks, &self.word)?;
            if harm < distance {
                let label = self.row.get(decided).copied();
                return Ok(label.map(|label| Estimate { label, harm }));
            }
        }
        Ok(None)
    }

    // Writes the labels from the stage after `decided` on that a number stands for.
    fn fill_row(&mut self, decided: usize, number: usize) {
        let mut rest = number;
        for (label, size) in self.row.iter_mut().zip(&self.sizes).skip(decided) {
            let size = (*size).max(1);
            *label = (rest % size).min(255) as u8;
            rest /= size;
        }
    }

    // How many rows begin with the same labels of the first `decided` stages.
    fn rows_from(&self, decided: usize) -> usize {
        self.sizes
            .iter()
            .skip(decided)
            .fold(1, |rows: usize, size| rows.wrapping_mul(*size))
    }
}
