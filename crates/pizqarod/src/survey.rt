// Many recipes side by side, for choosing one.
use crate::failure::Failure;
use recipe_texts::text::read_text;
use recipes::recipe::Recipe;
use std::alloc::{AllocError, Global};
use std::fmt;

// Rows compare by reach, then bytes, and then in the order in which they came.
#[derive(PartialEq, Eq, PartialOrd, Ord, Drop)]
struct Row {
    reach: usize,
    bytes: usize,
    line: usize,
    bits: usize,
    cells: usize,
    text: String,
}

impl fmt::Display for Row {
    fn fmt<W: fmt::Write>(&self, f: &mut fmt::Formatter<W>) -> fmt::Result {
        let Row {
            reach,
            bytes,
            line: _,
            bits,
            cells,
            text,
        } = self;
        write!(f, "{reach:>5}  {bytes:>5}  {bits:>5}  {cells:>5}  {text}")
    }
}

#[derive(Drop)]
pub(crate) struct Survey {
    rows: Vec<Row>,
    refused: String,
    lines: usize,
    heap: Global,
}

impl Survey {
    pub(crate) fn new(heap: Global) -> Self {
        Survey {
            rows: Vec::new(heap),
            refused: String::new(heap),
            lines: 0,
            heap,
        }
    }

    fn add(&mut self, text: &str, recipe: &Recipe) -> Result<(), AllocError> {
        self.rows.push(Row {
            reach: recipe.reach(),
            bytes: recipe.bytes(),
            line: self.lines,
            bits: recipe.message_bits(),
            cells: recipe.cells(),
            text: String::from_str(self.heap, text)?,
        })?;
        Ok(())
    }

    /// Takes in one line of input; an empty one is passed over.
    pub(crate) fn note(&mut self, line: &str) -> Result<(), AllocError> {
        let text = line.trim();
        self.lines = self.lines.saturating_add(1);
        if text.is_empty() {
            return Ok(());
        }
        match read_text(self.heap, text)? {
            Ok(recipe) => self.add(text, &recipe),
            Err(error) => {
                let failure = Failure::from(error);
                writeln!(self.refused, "{text}: {failure}")
            }
        }
    }

    /// The table: accepted recipes by reach and then bytes, then the refused ones as they came.
    pub(crate) fn table(&mut self) -> Result<String, AllocError> {
        self.rows.sort()?;
        let mut out = String::from_str(self.heap, "reach  bytes   bits  cells  recipe\n")?;
        for row in &self.rows {
            writeln!(out, "{row}")?;
        }
        out.push_str(self.refused.as_str())?;
        Ok(out)
    }
}
