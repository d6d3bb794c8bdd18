// The stages of a word's correction one by one, for somebody to watch. The way that a pile takes through them stands here a second time,
// since a pile lends no room for what each stage makes of a word. The answer stays the pile's own call.

use crate::cells::Word;
use crate::failure::Failure;
use chains::chain::{Chain, Estimate};
use codes::code::Code;
use recipe_piles::parts::{Parts, StageCode};
use stages::choice::choose;
use std::alloc::{AllocError, Global};
use std::fmt;

// A stage's choice and its score.
#[derive(Drop)]
struct Choice {
    word: Vec<u8>,
    score: usize,
}

/// What the columns of a stage point to, and what the stage makes of it.
#[derive(Drop)]
pub(crate) struct Watched {
    stage: usize,
    inner: usize,
    outer: usize,
    estimates: Vec<Option<Estimate>>,
    choice: Option<Choice>,
}

impl Watched {
    pub(crate) fn has_choice(&self) -> bool {
        self.choice.is_some()
    }
}

impl fmt::Display for Watched {
    fn fmt<W: fmt::Write>(&self, f: &mut fmt::Formatter<W>) -> fmt::Result {
        let Watched {
            stage,
            inner,
            outer,
            estimates,
            choice,
        } = self;
        write!(
            f,
            "stage {stage}, distances {inner} and {outer}\n  estimates, as label/harm:"
        )?;
        for estimate in estimates {
            match estimate {
                Some(Estimate { label, harm }) => write!(f, " {label}/{harm}")?,
                None => f.write_str(" -")?,
            }
        }
        match choice {
            None => write!(f, "\n  no choice\n"),
            Some(choice) => {
                f.write_str("\n  choice:")?;
                for label in &choice.word {
                    write!(f, " {label}")?;
                }
                let score = choice.score;
                write!(f, ", score {score}\n")
            }
        }
    }
}

/// The parts of a pile, a word of it, and the choices of the stages so far.
#[derive(Drop)]
pub(crate) struct Watch<'a> {
    parts: &'a Parts,
    word: &'a Word,
    chosen: Vec<Vec<u8>>,
    heap: Global,
}

impl<'a> Watch<'a> {
    pub(crate) fn new(heap: Global, parts: &'a Parts, word: &'a Word) -> Self {
        Watch {
            parts,
            word,
            chosen: Vec::new(heap),
            heap,
        }
    }

    // The labels that are chosen for a column.
    fn labels(&self, column: usize) -> Result<Vec<u8>, AllocError> {
        self.chosen
            .iter()
            .filter_map(|word| word.get(column).copied())
            .collect(self.heap)
    }

    fn estimates(&self, stage: usize) -> Result<Vec<Option<Estimate>>, Failure> {
        let chain = &self.parts.chain;
        let breadth = chain.breadth().max(1);
        let mut estimates = Vec::new(self.heap);
        let columns = self.word.cells.chunks(breadth);
        for (j, (cells, marks)) in columns.zip(self.word.marks.chunks(breadth)).enumerate() {
            let labels = self.labels(j)?;
            let estimate = chain.estimate(stage, labels.as_slice(), cells, marks)?;
            estimates.push(estimate)?;
        }
        Ok(estimates)
    }

    /// The next stage, by its code; its choice is kept for the stages after it.
    pub(crate) fn next(&mut self, code: &StageCode) -> Result<Watched, Failure> {
        let stage = self.chosen.len().saturating_add(1);
        let inner = self.parts.chain.distance(stage)?;
        let estimates = self.estimates(stage)?;
        let mut word = vec![in self.heap; 0; code.len()]?;
        let distance = u8::try_from(inner).unwrap_or(u8::MAX);
        let choice = match choose(code, distance, estimates.as_slice(), &mut word)? {
            None => None,
            Some(score) => {
                let kept = Vec::from_slice(self.heap, word.as_slice())?;
                self.chosen.push(kept)?;
                Some(Choice { word, score })
            }
        };
        Ok(Watched {
            stage,
            inner,
            outer: code.distance(),
            estimates,
            choice,
        })
    }
}
