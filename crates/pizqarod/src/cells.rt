// Words as text: a cell is 0, 1 or, where it is blank, ?. A message is written so too, with no blank. Spaces do not count.

use crate::failure::Failure;
use chains::chain::Chain;
use recipe_piles::making::chain_of;
use recipes::recipe::Recipe;
use std::alloc::Global;
use std::fmt;
use words::fault::Fault;

/// A word beside its marks: two buffers, as the calls of a code take them.
#[derive(Drop)]
pub(crate) struct Word {
    pub(crate) cells: Vec<u8>,
    pub(crate) marks: Vec<u8>,
}

// The value and the mark of the cell that a character writes.
fn cell(character: char) -> Result<(u8, u8), Failure> {
    match character {
        '0' => Ok((0, 0)),
        '1' => Ok((1, 0)),
        '?' => Ok((0, 1)),
        other => Err(Failure::NotACell(other)),
    }
}

// What is done to a cell, by its number.
#[derive(Clone, Copy)]
enum Change {
    TurnOver(usize),
    MakeBlank(usize),
}

impl Change {
    fn parse(text: &str) -> Option<Self> {
        match text.strip_suffix("?") {
            Some(number) => number.parse().ok().map(Change::MakeBlank),
            None => text.parse().ok().map(Change::TurnOver),
        }
    }
}

impl Word {
    /// The word that a text writes.
    pub(crate) fn parse(heap: Global, text: &str) -> Result<Self, Failure> {
        let mut cells = Vec::new(heap);
        let mut marks = Vec::new(heap);
        for character in text.chars() {
            if character == ' ' {
                continue;
            }
            let (value, mark) = cell(character)?;
            cells.push(value)?;
            marks.push(mark)?;
        }
        Ok(Word { cells, marks })
    }

    /// The same with no blank: the bits of a message.
    pub(crate) fn parse_bits(heap: Global, text: &str) -> Result<Vec<u8>, Failure> {
        let Word { cells, marks } = Word::parse(heap, text)?;
        if marks.contains(&1) {
            return Err(Failure::NotACell('?'));
        }
        Ok(cells)
    }

    /// Does what a text asks for: a number turns that cell over, and a number with ? behind it makes the cell blank.
    pub(crate) fn damage(&mut self, change: &str) -> Option<()> {
        self.apply(Change::parse(change)?)
    }

    // Changes a cell, if the word has it.
    fn apply(&mut self, change: Change) -> Option<()> {
        match change {
            Change::TurnOver(cell) => {
                let value = self.cells.get_mut(cell)?;
                *value = 1 - (*value).min(1);
            }
            Change::MakeBlank(cell) => *self.marks.get_mut(cell)? = 1,
        }
        Some(())
    }
}

/// How many cells a column of a recipe's words has.
pub(crate) fn breadth_of(recipe: &Recipe) -> Result<usize, Fault> {
    Ok(chain_of(recipe)?.breadth())
}

/// A word as it prints, with a space between columns.
#[derive(Clone, Copy)]
pub(crate) struct Columns<'a> {
    pub(crate) cells: &'a [u8],
    pub(crate) marks: &'a [u8],
    pub(crate) breadth: usize,
}

impl fmt::Display for Columns<'_> {
    fn fmt<W: fmt::Write>(&self, f: &mut fmt::Formatter<W>) -> fmt::Result {
        for (i, (value, mark)) in self.cells.iter().zip(self.marks).enumerate() {
            if i > 0 && i.checked_rem(self.breadth) == Some(0) {
                f.write_str(" ")?;
            }
            if *mark == 0 {
                write!(f, "{value}")?;
            } else {
                f.write_str("?")?;
            }
        }
        Ok(())
    }
}
