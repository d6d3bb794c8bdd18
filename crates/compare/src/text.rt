// Bytes, cells and answers as text.
use crate::reading::Answer;
use std::fmt;

/// Bytes as hexadecimal digits.
#[derive(Clone, Copy)]
pub(crate) struct Hex<'a>(pub(crate) &'a [u8]);

/// Cells as 0 and 1, and as ? where they are marked as blank.
#[derive(Clone, Copy)]
pub(crate) struct Cells<'a> {
    pub(crate) cells: &'a [u8],
    pub(crate) marks: &'a [u8],
}

/// An answer, or the place of a refusal: the stage without a choice, or 0.
#[derive(Clone, Copy)]
pub(crate) struct Told<'a>(pub(crate) &'a Result<Answer, usize>);

impl<'a> Cells<'a> {
    /// Cells of which none is blank.
    pub(crate) fn readable(cells: &'a [u8]) -> Self {
        Cells { cells, marks: &[] }
    }
}

impl fmt::Display for Hex<'_> {
    fn fmt<W: fmt::Write>(&self, f: &mut fmt::Formatter<W>) -> fmt::Result {
        for byte in self.0 {
            write!(f, "{byte:02x}")?;
        }
        Ok(())
    }
}

impl fmt::Display for Cells<'_> {
    fn fmt<W: fmt::Write>(&self, f: &mut fmt::Formatter<W>) -> fmt::Result {
        for (i, cell) in self.cells.iter().enumerate() {
            match self.marks.get(i) {
                Some(1) => f.write_str("?")?,
                _ => write!(f, "{cell}")?,
            }
        }
        Ok(())
    }
}

impl fmt::Display for Told<'_> {
    fn fmt<W: fmt::Write>(&self, f: &mut fmt::Formatter<W>) -> fmt::Result {
        let answer = match self.0 {
            Ok(answer) => answer,
            Err(place) => return write!(f, "refused at place {place}"),
        };
        let harm = answer.harm;
        let word = Cells::readable(answer.word.as_slice());
        let message = Cells::readable(answer.message.as_slice());
        write!(f, "harm {harm}, codeword {word}, message {message}")
    }
}
