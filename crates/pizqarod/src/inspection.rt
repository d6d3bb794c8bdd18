// A page as somebody sees it who wants to know how worn it is.

use crate::picture::{Picture, Row};
use crate::refusal::Refusal;
use lives::call::Answer;
use std::fmt;

/// What a read of a page answers, and the page's cells before and after its correction.
#[derive(Drop)]
pub(crate) struct Inspection {
    pub(crate) page: usize,
    pub(crate) answer: Answer,
    pub(crate) reach: usize,
    pub(crate) breadth: usize,
    pub(crate) cells: Vec<u8>,
    pub(crate) marks: Vec<u8>,
    pub(crate) corrected: Vec<u8>,
}

impl Inspection {
    fn picture(&self) -> Picture<'_> {
        Picture {
            page: Row {
                cells: self.cells.as_slice(),
                marks: self.marks.as_slice(),
                corrected: self.corrected.as_slice(),
            },
            column: self.breadth,
        }
    }
}

impl fmt::Display for Inspection {
    fn fmt<W: fmt::Write>(&self, f: &mut fmt::Formatter<W>) -> fmt::Result {
        let Inspection { page, reach, .. } = self;
        match self.answer {
            Ok(harm) => {
                let left = reach.saturating_sub(harm);
                write!(
                    f,
                    "inspect page {page}: harm {harm}, {left} from the reach {reach}"
                )?;
            }
            Err(fault) => {
                let refusal = Refusal(fault);
                write!(f, "inspect: {refusal}, reach {reach}")?;
            }
        }
        let blanks = self.marks.iter().filter(|mark| **mark != 0).count();
        let picture = self.picture();
        write!(f, ", {blanks} of its cells blank\n{picture}")
    }
}
