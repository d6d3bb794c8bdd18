// A decoder for many messages, by elimination over two elements. The code is linear: its codewords are the sums of those of the
// messages with a single 1.
use crate::bits::Bits;
use crate::plan::Plan;
use crate::reading::{Answer, Reading};
use crate::sets;
use std::alloc::{AllocError, Global};

/// A codeword with its message.
#[derive(Drop)]
struct Row {
    word: Bits,
    message: Bits,
}

/// Rows whose sums are the codewords.
#[derive(Drop)]
pub(crate) struct Elimination {
    rows: Vec<Row>,
    cells: usize,
}

/// Such rows, each with a readable place where it alone has a 1.
#[derive(Drop)]
struct Basis {
    rows: Vec<Row>,
    places: Vec<usize>,
}

impl Row {
    fn copy(&self, heap: Global) -> Result<Row, AllocError> {
        Ok(Row {
            word: self.word.copy(heap)?,
            message: self.message.copy(heap)?,
        })
    }

    fn add(&mut self, other: &Row) {
        self.word.add(&other.word);
        self.message.add(&other.message);
    }
}

/// Adds a row to those that have a 1 in a place.
fn clear(rows: &mut [Row], pivot: &Row, place: usize) {
    for row in rows.iter_mut() {
        if row.word.has(place) {
            row.add(pivot);
        }
    }
}

/// Gives row i a readable place of its own, if it has a 1 in one.
fn isolate(rows: &mut [Row], i: usize, readable: &Bits) -> Option<usize> {
    let (above, rest) = rows.split_at_mut_checked(i)?;
    let (pivot, below) = rest.split_first_mut()?;
    let place = pivot.word.first(readable)?;
    clear(above, pivot, place);
    clear(below, pivot, place);
    Some(place)
}

impl Basis {
    /// Turns a sum of rows, which is 0 at first, into the one that has a word's cells at all places of the basis.
    fn agree(&self, sum: &mut Row, reading: &Reading) {
        for (row, place) in self.rows.iter().zip(&self.places) {
            if reading.cells.has(*place) {
                sum.add(row);
            }
        }
    }

    /// Adds the rows of a set; twice leaves the sum as it was.
    fn add_set(&self, sum: &mut Row, set: &[usize]) {
        for i in set {
            if let Some(row) = self.rows.get(*i) {
                sum.add(row);
            }
        }
    }

    /// Seeks a codeword near enough that differs from a sum of rows at so many places of the basis. Turns the sum into it and answers its
    /// harm.
    fn seek_at(
        &self,
        heap: Global,
        sum: &mut Row,
        places: usize,
        reading: &Reading,
        bound: usize,
    ) -> Result<Option<usize>, AllocError> {
        let len = self.rows.len();
        let mut set: Vec<usize> = (0..places).collect(heap)?;
        for _ in 0..sets::count(len, places) {
            self.add_set(sum, set.as_slice());
            let harm = reading.harm(&sum.word);
            if harm < bound {
                return Ok(Some(harm));
            }
            self.add_set(sum, set.as_slice());
            sets::step(&mut set, len);
        }
        Ok(None)
    }

    /// Seeks a codeword near enough. It differs from the word in at most so many readable cells, and so at no more places of the basis; its
    /// cells there determine it.
    fn seek(
        &self,
        heap: Global,
        sum: &mut Row,
        reading: &Reading,
        bound: usize,
    ) -> Result<Option<usize>, AllocError> {
        let most = bound.saturating_sub(reading.blanks).saturating_sub(1) / 2;
        for places in 0..most.saturating_add(1) {
            if let Some(harm) = self.seek_at(heap, sum, places, reading, bound)? {
                return Ok(Some(harm));
            }
        }
        Ok(None)
    }
}

impl Elimination {
    pub(crate) fn new(heap: Global, plan: &Plan) -> Result<Elimination, AllocError> {
        let mut rows = Vec::new(heap);
        for generator in &plan.generators(heap)? {
            let row = Row {
                word: Bits::of(heap, generator.word.as_slice())?,
                message: Bits::of(heap, generator.message.as_slice())?,
            };
            rows.push(row).map_err(AllocError::from)?;
        }
        Ok(Elimination {
            rows,
            cells: plan.cells(),
        })
    }

    fn copy_rows(&self, heap: Global) -> Result<Vec<Row>, AllocError> {
        let mut rows = Vec::new(heap);
        for row in &self.rows {
            rows.push(row.copy(heap)?).map_err(AllocError::from)?;
        }
        Ok(rows)
    }

    /// The code's basis at readable places. There is none where two codewords are the same in all of them; then as many cells are blank
    /// as codewords are apart.
    fn basis(&self, heap: Global, readable: &Bits) -> Result<Option<Basis>, AllocError> {
        let mut rows = self.copy_rows(heap)?;
        let mut places = Vec::new(heap);
        for i in 0..rows.len() {
            let Some(place) = isolate(&mut rows, i, readable) else {
                return Ok(None);
            };
            places.push(place)?;
        }
        Ok(Some(Basis { rows, places }))
    }

    /// The codeword with harm below a bound that is at most the code's distance, if there is one.
    pub(crate) fn nearest(
        &self,
        heap: Global,
        reading: &Reading,
        bound: usize,
    ) -> Result<Option<Answer>, AllocError> {
        if reading.blanks >= bound {
            return Ok(None);
        }
        let Some(basis) = self.basis(heap, &reading.readable)? else {
            return Ok(None);
        };
        let message_bits = self.rows.len();
        let mut sum = Row {
            word: Bits::zeros(heap, self.cells)?,
            message: Bits::zeros(heap, message_bits)?,
        };
        basis.agree(&mut sum, reading);
        let Some(harm) = basis.seek(heap, &mut sum, reading, bound)? else {
            return Ok(None);
        };
        Ok(Some(Answer {
            harm,
            word: sum.word.cells(heap, self.cells)?,
            message: sum.message.cells(heap, message_bits)?,
        }))
    }
}
