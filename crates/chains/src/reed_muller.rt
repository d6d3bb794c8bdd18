// The Reed-Muller chain of 2^r cells. A bit's number is a set of coordinates, as a cell's is, and a bit turns the
// cells that have all of its ones. Words are numbers here, the first cell most significant.
// Each word lies below 2^2^r, which stays a clause: a type for it would have to hold r beside the word.
ghost use Rattle.std.specs.Prelude.{◌≡◌, ◌+◌, ◌-◌, ◌*◌, ◌/◌, ◌%◌, ◌^◌, ◌<◌, ◌≤◌, ◌&&◌, length, drop, if◌then◌else◌, MatchResult, ◌==◌, bit_and, bit_or, count_ones, nat_eq, slice_index, None};
ghost use Rattle.chains.specs.Bits.{bits_of, spelled};
ghost use Rattle.chains.specs.Model.{Cells, LabelsFrom, at_stage};
ghost use Rattle.chains.specs.Promises.{Estimates};
ghost use Rattle.chains.specs.ReedMuller.{MullerRange, muller_widths, muller_word, muller_chain, order, row_bits};
ghost use Rattle.chains.specs.Refusals.{outside, RowFits, ReadingFits};
ghost use Rattle.chains.specs.Votes.{column, columns, turned, laid, settled, votes, elected, subsets, decided_bits, found_bits, found_harm};
ghost use Rattle.chains.specs.MullerLaw.{muller_lawful};
ghost use Rattle.chains.specs.Either.{never_refused};

use crate::chain::{Chain, Estimate};
use crate::checks::{Frame, check_stage};
use crate::reading::Reading;
use crate::tables::{number, subsets, widths};
use words::bits::{bit_in, spell, write_bits};
use words::fault::{Fault, Kind, Layer};

/// The Reed-Muller chain of 2^r cells, r from 1 to 4: r + 1 stages, of distance 1, 2, 4 and so on.
#[derive(Clone, Copy)]
pub struct ReedMuller {
    r: usize,
    ghost range: { MullerRange r },
}

impl ReedMuller {
    /// The chain of 2^r cells, or a refusal where r is not from 1 to 4.
    pub fn new(r: u8) -> Result<Self, Fault>
        ensures { MatchResult result (λ h. (h.r ≡ r) × MullerRange r) (λ f. (MullerRange r → ⊥) × (f ≡ outside)) }
    {
        if (1..=4).contains(&r) {
            Ok(ReedMuller { r: usize::from(r) })
        } else {
            Err(Fault::new(Kind::OutsideKind, Layer::Chain, 0))
        }
    }

    fn cells(&self) -> usize
        ensures { result ≡ 2 ^ self.now.r }
    {
        1 << self.r
    }

    fn frame(&self) -> Frame<'static>
        ensures breadth { result.breadth ≡ 2 ^ self.now.r }
        ensures widths { result.widths.now ≡ muller_widths self.now.r }
    {
        Frame {
            breadth: self.cells(),
            widths: widths(self.r),
        }
    }

    // The word with the cells of the bit at place t turned, where the bit is 1.
    fn turn(&self, t: usize, bit: u16, word: u16) -> u16
        requires { (t < 2 ^ self.now.r) × (word < 2 ^ 2 ^ self.now.r) }
        ensures is { bits_of (2 ^ self.now.r) result ≡ turned bit (column self.now.r (slice_index (order self.now.r) t)) (bits_of (2 ^ self.now.r) word) }
        ensures small { result < 2 ^ 2 ^ self.now.r }
    {
        if bit == 0 {
            word
        } else {
            word ^ subsets(self.cells() - 1 - number(self.r, t))
        }
    }

    // The word with the bits at the first places taken off, or laid on, which is the same.
    fn take_off(&self, row: Joined, word: u16) -> u16
        requires { (row.count ≤ 2 ^ self.now.r) × (word < 2 ^ 2 ^ self.now.r) }
        ensures is { bits_of (2 ^ self.now.r) result ≡ laid (columns self.now.r) (bits_of row.count row.bits) (bits_of (2 ^ self.now.r) word) }
        ensures small { result < 2 ^ 2 ^ self.now.r }
    {
        let mut rest = word;
        for t in 0..row.count {
            rest = self.turn(t, u16::from(bit_in(row.bits, row.count, t)), rest);
        }
        rest
    }

    // The bit numbered s, as most of the sets vote from which it can be read: each has the cells with the same ones
    // outside s. One pass counts both sides, since a pass for each would look at every set twice. A chain over the range
    // would leave the bound of the shift open.
    fn vote(&self, s: usize, word: u16, blank: u16) -> u16
        requires { s < 2 ^ self.now.r }
        ensures { result ≡ elected (column self.now.r s).checks (bits_of (2 ^ self.now.r) word) (bits_of (2 ^ self.now.r) blank) }
    {
        let mut zeros = 0;
        let mut ones = 0;
        for a in 0..self.cells() {
            if a & s == 0 {
                let set = subsets(s) << a;
                zeros += usize::from(speaks(0, set, word, blank));
                ones += usize::from(speaks(1, set, word, blank));
            }
        }
        u16::from(zeros < ones)
    }

    // Votes for the bits from place `from` on, each taken off before the next.
    fn settle(&self, from: usize, word: u16, blank: u16) -> Settled
        requires { (from ≤ 2 ^ self.now.r) × (word < 2 ^ 2 ^ self.now.r) }
        ensures bits { result.bits ≡ spelled (settled (drop from (columns self.now.r)) (bits_of (2 ^ self.now.r) word) (bits_of (2 ^ self.now.r) blank)) }
        ensures rest { bits_of (2 ^ self.now.r) result.rest ≡ laid (drop from (columns self.now.r)) (settled (drop from (columns self.now.r)) (bits_of (2 ^ self.now.r) word) (bits_of (2 ^ self.now.r) blank)) (bits_of (2 ^ self.now.r) word) }
        ensures small { result.rest < 2 ^ 2 ^ self.now.r }
    {
        let mut bits = 0;
        let mut rest = word;
        for t in from..self.cells() {
            let bit = self.vote(number(self.r, t), rest, blank);
            bits = 2 * bits + bit;
            rest = self.turn(t, bit, rest);
        }
        Settled { bits, rest }
    }

    // The row that the votes find, once the decided labels are taken off the reading.
    fn find(&self, stage: usize, labels: &[u8], reading: &Reading<'_>) -> Found
        requires { ReadingFits (2 ^ self.now.r) (self.now.r + 1) (at_stage (muller_widths self.now.r)) stage labels.now reading.now.cells.now reading.now.marks.now }
        ensures count { result.count ≡ length (decided_bits self.now.r labels.now) }
        ensures bits { result.bits ≡ spelled (found_bits self.now.r labels.now reading.now.cells.now reading.now.marks.now) }
        ensures harm { result.harm ≡ found_harm self.now.r labels.now reading.now.cells.now reading.now.marks.now }
    {
        let decided = self.join(labels);
        let blank = spell(reading.marks);
        let begun = self.take_off(decided, spell(reading.cells));
        let settled = self.settle(decided.count, begun, blank);
        Found {
            count: decided.count,
            bits: settled.bits,
            harm: harm_left(settled.rest, blank),
        }
    }

    // The label at a stage of the row that the votes find, if that row lies near enough.
    fn nearest(&self, stage: usize, labels: &[u8], reading: &Reading<'_>) -> Option<Estimate>
        requires { ReadingFits (2 ^ self.now.r) (self.now.r + 1) (at_stage (muller_widths self.now.r)) stage labels.now reading.now.cells.now reading.now.marks.now }
        ensures { Estimates (muller_chain self.now.r) stage labels.now reading.now.cells.now reading.now.marks.now result }
    {
        let found = self.find(stage, labels, reading);
        if found.harm < 1 << (stage - 1) {
            let label = self.first_label(stage, found.count, found.bits);
            Some(Estimate {
                label,
                harm: found.harm,
            })
        } else {
            None
        }
    }

    // The label of a stage, at the head of the bits from that stage on.
    fn first_label(&self, stage: usize, count: usize, bits: u16) -> u8
        requires { (1 ≤ stage) × ((stage ≤ self.now.r + 1) × ((count + at_stage (muller_widths self.now.r) stage ≤ 2 ^ self.now.r) × (bits < 2 ^ (2 ^ self.now.r - count)))) }
        ensures { result ≡ bits / 2 ^ (2 ^ self.now.r - count - at_stage (muller_widths self.now.r) stage) }
    {
        let width = usize::from(widths(self.r)[stage - 1]);
        (bits >> (self.cells() - count - width)) as u8
    }

    // The bits of labels, one stage after the other.
    fn join(&self, labels: &[u8]) -> Joined
        requires { (length labels.now ≤ self.now.r + 1) × (LabelsFrom (at_stage (muller_widths self.now.r)) 1 labels.now) }
        ensures count { result.count ≡ length (row_bits (muller_widths self.now.r) labels.now) }
        ensures bits { bits_of result.count result.bits ≡ row_bits (muller_widths self.now.r) labels.now }
        ensures fits { result.count ≤ 2 ^ self.now.r }
    {
        let widths = widths(self.r);
        let mut bits = 0;
        let mut count = 0;
        // By index: over a zip the proof must be told at each turn which place it is at, and where the shorter ends.
        for (i, label) in labels.iter().enumerate() {
            bits = (bits << widths[i]) + u16::from(*label);
            count += usize::from(widths[i]);
        }
        Joined { bits, count }
    }
}

// Some of the bits of a row, the first most significant.
#[derive(Clone, Copy)]
struct Joined {
    bits: u16,
    count: usize,
}

// The bits that were voted for, and what is left of the reading without them.
#[derive(Clone, Copy)]
struct Settled {
    bits: u16,
    rest: u16,
}

// How many bits were decided, the bits that were found after them, and the harm of the row that all make.
#[derive(Clone, Copy)]
struct Found {
    count: usize,
    bits: u16,
    harm: usize,
}

// A set of cells votes for b if it has no blank cell and the sum b.
fn speaks(b: u32, set: u16, word: u16, blank: u16) -> bool
    ensures { result ≡ (nat_eq (bit_and blank set) 0 && count_ones (bit_and word set) % 2 == b) }
{
    blank & set == 0 && (word & set).count_ones() % 2 == b
}

// The harm of a reading, by its blank cells and what is left of it: a blank cell counts once, and not twice.
fn harm_left(rest: u16, blank: u16) -> usize
    ensures { result + count_ones blank ≡ 2 * count_ones (bit_or rest blank) }
{
    (2 * (rest | blank).count_ones() - blank.count_ones()) as usize
}

impl Chain for ReedMuller {
    ghost model = { λ h. muller_chain h.r };

    // its numbers are those of its kind, by its type
    ghost refusal = { λ _. None };

    ghost lawful = { λ h _. muller_lawful h.r h.range };

    ghost one_fault = { λ _ f due. never_refused f due };

    fn check(&self) -> Result<(), Fault> {
        Ok(())
    }

    fn breadth(&self) -> usize {
        self.cells()
    }

    fn stages(&self) -> usize {
        self.r + 1
    }

    fn width(&self, stage: usize) -> Result<usize, Fault> {
        check_stage(self.r + 1, stage)?;
        Ok(usize::from(widths(self.r)[stage - 1]))
    }

    fn distance(&self, stage: usize) -> Result<usize, Fault> {
        check_stage(self.r + 1, stage)?;
        Ok(1 << (stage - 1))
    }

    fn word_of(&self, labels: &[u8], cells: &mut [u8]) -> Result<(), Fault> {
        self.frame().check_row(labels, cells)?;
        let row = self.join(labels);
        write_bits(self.take_off(row, 0), cells);
        Ok(())
    }

    fn estimate(
        &self,
        stage: usize,
        labels: &[u8],
        cells: &[u8],
        marks: &[u8],
    ) -> Result<Option<Estimate>, Fault> {
        self.frame().check_reading(stage, labels, cells, marks)?;
        Ok(self.nearest(stage, labels, &Reading { cells, marks }))
    }
}
