// The stages' choices, one after the other, and the word that they make.
ghost use Rattle.std.specs.Prelude.{◌≡◌, ℕ, suc, ◌*◌, ◌<◌, ◌≤◌, map, length, replicate, MatchResult};
ghost use Rattle.words.specs.declared.fault.Kind.TheVariants.{NoCodeword};
ghost use Rattle.words.specs.declared.fault.Layer.TheVariants.{Code as the_code};
ghost use Rattle.words.specs.Faults.{fault};
ghost use Rattle.words.specs.Soundness.{Sound};
ghost use Rattle.chains.specs.Model.{Cells, LabelsFrom, Stage};
ghost use Rattle.chains.specs.Promises.{Estimates};
ghost use Rattle.pile_laws.specs.Build.{labels_at};
ghost use Rattle.pile_laws.specs.Flat.{words_in};
ghost use Rattle.pile_laws.specs.Stages.{Choices};
ghost use Rattle.piles.specs.Decoding.{Chooses, ChoosesAll, EstimatedColumns, Finds, ReadWord, Recognizes, Searched};

use crate::columns::{gather, lay_columns};
use crate::numbers::least_reach;
use chains::chain::{Chain, Estimate};
use codes::checks::check_near;
use codes::code::Code;
use stages::choice::choose;
use words::fault::{Fault, Kind, Layer};
use words::harms::harm;
use words::limits::{MOST_CELLS, MOST_STAGES};

/// The estimate of column j behind the stages that have chosen.
fn estimate_column<H: Chain>(
    chain: &H,
    chosen: usize,
    words: &[u8],
    columns: usize,
    j: usize,
    cells: &[u8],
    marks: &[u8],
) -> Result<Option<Estimate>, Fault>
    requires chain { (Sound H.Chain.refusal chain.now) × ((Stage (H.Chain.model chain.now) (suc chosen)) × ((Cells (H.Chain.model chain.now).breadth cells.now) × (Cells (H.Chain.model chain.now).breadth marks.now))) }
    requires words { (j < columns) × ((columns * chosen ≤ length words.now) × (LabelsFrom (H.Chain.model chain.now).width 1 (labels_at (words_in columns chosen words.now) j))) }
    ensures { MatchResult result (λ e. Estimates (H.Chain.model chain.now) (suc chosen) (labels_at (words_in columns chosen words.now) j) cells.now marks.now e) (λ _. ⊥) }
{
    let mut room = [0; MOST_STAGES];
    let labels = &mut room[..chosen];
    gather(words, columns, j, labels);
    chain.estimate(chosen + 1, labels, cells, marks)
}

/// A word of a pile beside its marks, the parts of the pile, and how many columns it has.
#[derive(Clone, Copy)]
pub(crate) struct Search<'a, H, A> {
    pub(crate) chain: &'a H,
    pub(crate) codes: &'a [A],
    pub(crate) columns: usize,
    pub(crate) word: &'a [u8],
    pub(crate) marks: &'a [u8],
}

impl<H: Chain, A: Code> Search<'_, H, A> {
    /// The estimates of all columns behind the stages that have chosen.
    fn estimate_columns(
        &self,
        chosen: usize,
        words: &[u8],
        estimates: &mut [Option<Estimate>],
    ) -> Result<(), Fault>
        requires chain { (Sound H.Chain.refusal self.now.chain.now) × (Stage (H.Chain.model self.now.chain.now) (suc chosen)) }
        requires word { ReadWord (H.Chain.model self.now.chain.now) self.now.columns self.now.word.now self.now.marks.now }
        requires words { (self.now.columns * chosen ≤ length words.now) × (((j : ℕ) → j < self.now.columns → LabelsFrom (H.Chain.model self.now.chain.now).width 1 (labels_at (words_in self.now.columns chosen words.now) j))) }
        requires estimates { length estimates.old ≡ self.now.columns }
        ensures { MatchResult result (λ _. EstimatedColumns (H.Chain.model self.now.chain.now) self.now.columns chosen words.now self.now.word.now self.now.marks.now estimates.new) (λ _. ⊥) }
    {
        let breadth = self.chain.breadth();
        // By index into word and marks: the column's number is needed too, and a zip with two `chunks` would be no plainer.
        for (j, estimate) in estimates.iter_mut().enumerate() {
            let start = breadth * j;
            let end = start + breadth;
            let found = estimate_column(
                self.chain,
                chosen,
                words,
                self.columns,
                j,
                &self.word[start..end],
                &self.marks[start..end],
            )?;
            *estimate = found;
        }
        Ok(())
    }

    /// The refusal of the stage behind those that have chosen.
    fn without_choice(&self, chosen: usize) -> Fault
        requires { chosen < length self.now.codes.now }
        ensures { result ≡ fault NoCodeword the_code (suc chosen) }
    {
        Fault::new(Kind::NoCodeword, Layer::Code, chosen + 1)
    }

    /// Puts a stage's choice behind those of the stages before it.
    fn choose_stage(&self, chosen: usize, words: &mut [u8]) -> Result<(), Fault>
        requires search { Searched H.Chain A.Code self.now }
        requires stage { (chosen < length self.now.codes.now) × ((self.now.columns * length self.now.codes.now ≤ length words.old) × (Choices (H.Chain.model self.now.chain.now) (map A.Code.model self.now.codes.now) self.now.word.now self.now.marks.now (words_in self.now.columns chosen words.old))) }
        ensures { Chooses (H.Chain.model self.now.chain.now) (map A.Code.model self.now.codes.now) self.now.columns chosen self.now.word.now self.now.marks.now words.old words.new result }
    {
        let mut room = [None; MOST_CELLS];
        let estimates = &mut room[..self.columns];
        self.estimate_columns(chosen, words, estimates)?;
        let inner = self.chain.distance(chosen + 1)?;
        let start = self.columns * chosen;
        let part = &mut words[start..start + self.columns];
        match choose(&self.codes[chosen], inner as u8, estimates, part)? {
            Some(_) => Ok(()),
            None => Err(self.without_choice(chosen)),
        }
    }

    /// The choices of all stages, one behind the other, or 12 with the first stage that has none.
    fn choose_all(&self, words: &mut [u8]) -> Result<(), Fault>
        requires search { Searched H.Chain A.Code self.now }
        requires room { self.now.columns * length self.now.codes.now ≤ length words.old }
        ensures { ChoosesAll (H.Chain.model self.now.chain.now) (map A.Code.model self.now.codes.now) self.now.columns (length self.now.codes.now) self.now.word.now self.now.marks.now words.new result }
    {
        for chosen in 0..self.codes.len() {
            self.choose_stage(chosen, words)?;
        }
        Ok(())
    }

    /// Puts the word that the stages' choices make into `found` and answers the harm of the given word against it. Refuses with 12 and the
    /// first stage without a choice, or with 12 and 0 if that harm is not below the reach.
    pub(crate) fn find(&self, words: &mut [u8], found: &mut [u8]) -> Result<usize, Fault>
        requires search { Searched H.Chain A.Code self.now }
        requires found { length found.old ≡ length self.now.word.now }
        requires room { self.now.columns * length self.now.codes.now ≤ length words.old }
        ensures { Finds (H.Chain.model self.now.chain.now) (map A.Code.model self.now.codes.now) self.now.columns (length self.now.codes.now) self.now.word.now self.now.marks.now words.new found.new result }
    {
        self.choose_all(words)?;
        lay_columns(self.chain, words, self.columns, found)?;
        let far = harm(Layer::Code, self.word, self.marks, found)?;
        check_near(far, least_reach(self.chain, self.codes)?)?;
        Ok(far)
    }

    /// Finds the stages' codewords of a word that is a codeword, and refuses any other word with 12 at place 0.
    pub(crate) fn recognize(&self, words: &mut [u8], found: &mut [u8]) -> Result<(), Fault>
        requires search { Searched H.Chain A.Code self.now }
        requires clear { self.now.marks.now ≡ replicate (length self.now.word.now) 0 }
        requires found { length found.old ≡ length self.now.word.now }
        requires room { self.now.columns * length self.now.codes.now ≤ length words.old }
        ensures { Recognizes (H.Chain.model self.now.chain.now) (map A.Code.model self.now.codes.now) self.now.columns (length self.now.codes.now) self.now.word.now words.new result }
    {
        match self.find(words, found) {
            Ok(harm) => check_near(harm, 1),
            Err(_) => Err(Fault::new(Kind::NoCodeword, Layer::Code, 0)),
        }
    }
}
