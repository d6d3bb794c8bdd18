// What every chain offers: its numbers, the word of a row of labels, and the estimate of a stage's label.
ghost use Rattle.std.specs.Prelude.{◌≡◌, IfErr, Option, Some, ⊤};
ghost use Rattle.words.specs.declared.fault.Fault.{Fault};
ghost use Rattle.words.specs.Buffers.{checked};
ghost use Rattle.words.specs.Soundness.{Refused, Sound};
ghost use Rattle.chains.specs.Model.{ChainModel, LawfulChain};
ghost use Rattle.chains.specs.Promises.{OfStage, Worded, Estimated};
ghost use Rattle.chains.specs.Refusals.{outside};

use words::fault::Fault;

/// The label that a reading points to at a stage, and the harm of the row that it comes from.
#[derive(Clone, Copy, PartialEq, Eq, Debug)]
pub struct Estimate {
    pub label: u8,
    pub harm: usize,
}

/// An inner code in stages. Stages are numbered from 1.
///
/// A chain whose numbers do not belong to its kind is not sound: `check` refuses it, and so does each of its calls, by the
/// same fault and changing nothing.
pub trait Chain {
    ghost model: { Self → ChainModel };

    // the fault that the check and each call of a chain give that is not sound; none of a sound chain
    ghost refusal: { Self → Option Fault };

    /// Answers exactly where the chain is sound.
    fn check(&self) -> Result<(), Fault>
        ensures refused { result ≡ checked (refusal self.now) }
        ensures number { IfErr result (λ f. f ≡ outside) };

    /// The number of cells.
    fn breadth(&self) -> usize
        ensures { result ≡ (model self.now).breadth };

    /// The number of stages.
    fn stages(&self) -> usize
        ensures { result ≡ (model self.now).stages };

    /// The width in bits of a stage's label.
    fn width(&self, stage: usize) -> Result<usize, Fault>
        ensures sound { Sound refusal self.now → OfStage (model self.now) (model self.now).width stage result }
        ensures refused { Refused (refusal self.now) result ⊤ };

    /// The distance of a stage.
    fn distance(&self, stage: usize) -> Result<usize, Fault>
        ensures sound { Sound refusal self.now → OfStage (model self.now) (model self.now).distance stage result }
        ensures refused { Refused (refusal self.now) result ⊤ };

    /// Fills the cells with the word of a row of labels.
    fn word_of(&self, labels: &[u8], cells: &mut [u8]) -> Result<(), Fault>
        ensures sound { Sound refusal self.now → Worded (model self.now) labels.now cells.old result cells.new }
        ensures refused { Refused (refusal self.now) result (cells.new ≡ cells.old) };

    /// The label at a stage, and the harm, of the row that begins with the labels decided before it and lies nearer
    /// to the reading than the stage's distance. There is at most one, and `None` says that there is none.
    // Cells and marks are two buffers, as the rules have them.
    fn estimate(
        &self,
        stage: usize,
        labels: &[u8],
        cells: &[u8],
        marks: &[u8],
    ) -> Result<Option<Estimate>, Fault>
        ensures sound { Sound refusal self.now → Estimated (model self.now) stage labels.now cells.now marks.now result }
        ensures refused { Refused (refusal self.now) result ⊤ };

    ghost lawful: { (h : Self) → Sound refusal h → LawfulChain (model h) };

    // whatever the chain, it is refused by 14 at place 0
    ghost one_fault: { (h : Self) (f : Fault) → refusal h ≡ Some f → f ≡ outside };
}
