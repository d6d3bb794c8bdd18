// What a page holds, in text.

use std::fmt;

/// A page's bytes: printable characters as they are, others as \x and two digits.
#[derive(Clone, Copy)]
pub(crate) struct Payload<'a>(pub(crate) &'a [u8]);

impl fmt::Display for Payload<'_> {
    fn fmt<W: fmt::Write>(&self, f: &mut fmt::Formatter<W>) -> fmt::Result {
        f.write_str("\"")?;
        for byte in self.0 {
            match *byte {
                b'"' | b'\\' => write!(f, "\\{}", char::from(*byte))?,
                b' '..=b'~' => write!(f, "{}", char::from(*byte))?,
                other => write!(f, "\\x{other:02x}")?,
            }
        }
        f.write_str("\"")
    }
}

/// Cells as they lie, beside their marks and what correction makes of them: buffers, as the calls of a medium and a code take them.
#[derive(Clone, Copy)]
pub(crate) struct Row<'a> {
    pub(crate) cells: &'a [u8],
    pub(crate) marks: &'a [u8],
    pub(crate) corrected: &'a [u8],
}

/// A page's cells, a row for each column: ? for a blank cell, and a cell that correction would change as - for 0 and + for 1.
#[derive(Clone, Copy)]
pub(crate) struct Picture<'a> {
    pub(crate) page: Row<'a>,
    pub(crate) column: usize,
}

// A cell's character.
fn shown(cell: u8, mark: u8, corrected: u8) -> &'static str {
    match (mark, cell, cell == corrected) {
        (0, 0, true) => "0",
        (0, 0, false) => "-",
        (0, _, true) => "1",
        (0, _, false) => "+",
        _ => "?",
    }
}

impl fmt::Display for Row<'_> {
    fn fmt<W: fmt::Write>(&self, f: &mut fmt::Formatter<W>) -> fmt::Result {
        let cells = self.cells.iter().zip(self.marks).zip(self.corrected);
        for ((cell, mark), corrected) in cells {
            f.write_str(shown(*cell, *mark, *corrected))?;
        }
        Ok(())
    }
}

impl fmt::Display for Picture<'_> {
    fn fmt<W: fmt::Write>(&self, f: &mut fmt::Formatter<W>) -> fmt::Result {
        let column = self.column.max(1);
        let cells = self.page.cells.chunks(column);
        let marks = self.page.marks.chunks(column);
        let corrected = self.page.corrected.chunks(column);
        for ((cells, marks), corrected) in cells.zip(marks).zip(corrected) {
            let row = Row {
                cells,
                marks,
                corrected,
            };
            writeln!(f, "  {row}")?;
        }
        Ok(())
    }
}

#[cfg(test)]
mod tests {
    use super::*;
    use std::test::Fail;

    #[test]
    fn bytes_show(rt: HostRuntime) -> Result<(), Fail> {
        let shown = format!(in rt.alloc(); "{}", Payload(&[b'a', b'"', b'\n', 0xff]))?;
        assert!(rt; shown.as_str() == "\"a\\\"\\x0a\\xff\"");
        Ok(())
    }

    // A 1 that is to be 0, a blank cell, and in the last column both ways round.
    #[test]
    fn changes_are_marked(rt: HostRuntime) -> Result<(), Fail> {
        let picture = Picture {
            page: Row {
                cells: &[0, 1, 0, 1, 1, 0],
                marks: &[0, 0, 1, 0, 0, 0],
                corrected: &[0, 0, 1, 1, 0, 1],
            },
            column: 2,
        };
        let shown = format!(in rt.alloc(); "{picture}")?;
        assert!(rt; shown.as_str() == "  0+\n  ?1\n  +-\n");
        Ok(())
    }
}
