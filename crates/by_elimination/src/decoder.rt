// A decoder by elimination: a relation q(x) = y·e(x) with few unknowns shows which places are right.
use crate::arithmetic::Products;
use arrayvec::ArrayVec;
use std::alloc::{AllocError, Global};
use std::iter::{once, successors};

/// How many places there are, since a place is a byte. Symbols behind them are not looked at, but they and their marks count.
const PLACES: usize = 256;

/// The most unknowns that matter: of at most 256 equations, the first unknown that depends on those before it is one of these.
const UNKNOWNS: usize = 257;

/// The symbols of a word at each of its places.
pub type Word = ArrayVec<u8, PLACES>;

/// An equation.
type Row = ArrayVec<u8, UNKNOWNS>;

/// Linear equations, one to a row.
#[derive(Drop)]
struct Matrix {
    columns: usize,
    rows: ArrayVec<Row, PLACES>,
}

/// The cell of a row in a column.
fn cell(row: &[u8], column: usize) -> u8 {
    row.get(column).copied().unwrap_or(0)
}

/// Writes first, first·x, first·x·x and so on to the end of a row.
fn push_powers(
    products: &Products,
    row: &mut Row,
    count: usize,
    x: u8,
    first: u8,
) -> Result<(), AllocError> {
    row.extend(successors(Some(first), |power| Some(products.times(*power, x))).take(count))
}

/// Moves the first row that is not zero in a column to the front, if there is one, and parts it from the others.
fn part_pivot(rows: &mut [Row], column: usize) -> Option<(&mut Row, &mut [Row])> {
    let first = rows.iter().position(|row| cell(row, column) != 0)?;
    rows.swap(0, first);
    rows.split_first_mut()
}

/// Multiplies a row by a factor.
fn scale(products: &Products, row: &mut [u8], factor: u8) {
    for x in row {
        *x = products.times(factor, *x);
    }
}

/// Makes a row zero in a column, by a multiple of the pivot, which is one there.
fn clear(products: &Products, row: &mut [u8], pivot: &[u8], column: usize) {
    let factor = cell(row, column);
    if factor != 0 {
        for (x, y) in row.iter_mut().zip(pivot) {
            *x ^= products.times(factor, *y);
        }
    }
}

impl Matrix {
    fn new(columns: usize) -> Matrix {
        Matrix {
            columns,
            rows: ArrayVec::new(),
        }
    }

    /// Makes a column one in its own row and zero in the others, if a row is left for it.
    fn reduce(&mut self, products: &Products, column: usize) -> Option<()> {
        let (above, rest) = self.rows.split_at_mut_checked(column)?;
        let (pivot, below) = part_pivot(rest, column)?;
        let factor = products.inverse(cell(pivot, column))?;
        scale(products, pivot, factor);
        for row in above.iter_mut().chain(below) {
            clear(products, row, pivot, column);
        }
        Some(())
    }

    /// The first column that depends on those before it.
    fn first_dependent(&mut self, products: &Products) -> Option<usize> {
        (0..self.columns).find(|column| self.reduce(products, *column).is_none())
    }

    /// Coefficients, not all zero, of a sum of columns that is zero, if there is such a sum.
    fn relation(&mut self, alloc: Global, products: &Products) -> Result<Option<Row>, AllocError> {
        let Some(dependent) = self.first_dependent(products) else {
            return Ok(None);
        };
        let above = self.rows.iter().take(dependent);
        let coefficients = above.map(|row| cell(row, dependent)).chain(once(1));
        Ok(Some(coefficients.collect(alloc)?))
    }
}

/// A symbol of a word, with its place.
#[derive(Clone, Copy, Default)]
pub struct Reading {
    pub place: u8,
    pub symbol: u8,
}

/// The symbols at the places that are not marked.
pub fn readings(
    alloc: Global,
    word: &[u8],
    marks: &[u8],
) -> Result<ArrayVec<Reading, 256>, AllocError> {
    (0..=255)
        .zip(word.iter().copied().zip(marks))
        .filter(|(_, (_, mark))| **mark == 0)
        .map(|(place, (symbol, _))| Reading { place, symbol })
        .collect(alloc)
}

/// Decodes words of a field by its products, of any length. Nothing is allocated: `collect` asks for an allocator, which an
/// `ArrayVec` leaves unused, and none of the vectors is given more than it has room for.
#[derive(Drop)]
pub struct Decoder<'a> {
    pub alloc: Global,
    pub products: &'a Products,
}

impl Decoder<'_> {
    /// The value of a polynomial, given by its coefficients, the lowest first.
    fn value(&self, coefficients: &[u8], x: u8) -> u8 {
        coefficients
            .iter()
            .rev()
            .fold(0, |all, c| self.products.times(all, x) ^ *c)
    }

    /// The coefficients of a polynomial e of t + 1 coefficients that vanishes at every wrong place, if at most t of the readings of a
    /// word for k symbols are wrong. If more are, there may be none. (Not inlined, nor is `through`, so that its matrix has left the
    /// stack when that of the other comes.)
    #[inline(never)]
    fn locate(&self, k: usize, t: usize, readings: &[Reading]) -> Result<Option<Row>, AllocError> {
        let ahead = t.saturating_add(1).min(UNKNOWNS);
        let behind = k.saturating_add(t).min(UNKNOWNS - ahead);
        let mut matrix = Matrix::new(ahead + behind);
        for Reading { place, symbol } in readings {
            let mut row = Row::new();
            push_powers(self.products, &mut row, ahead, *place, *symbol)?;
            push_powers(self.products, &mut row, behind, *place, 1)?;
            matrix.rows.extend(once(row))?;
        }
        let Some(mut coefficients) = matrix.relation(self.alloc, self.products)? else {
            return Ok(None);
        };
        coefficients.truncate(ahead);
        Ok(Some(coefficients))
    }

    /// The first n values of the polynomial of as many coefficients as there are readings that goes through them.
    #[inline(never)]
    fn through(&self, n: usize, readings: &[Reading]) -> Result<Option<Word>, AllocError> {
        let k = readings.len();
        let mut matrix = Matrix::new(k.saturating_add(1));
        for Reading { place, symbol } in readings {
            let mut row = Row::new();
            push_powers(self.products, &mut row, k, *place, 1)?;
            row.extend(once(*symbol))?;
            matrix.rows.extend(once(row))?;
        }
        let Some(mut coefficients) = matrix.relation(self.alloc, self.products)? else {
            return Ok(None);
        };
        coefficients.truncate(k);
        let values = (0..=255).take(n).map(|x| self.value(&coefficients, x));
        Ok(Some(values.collect(self.alloc)?))
    }

    /// The first n values of the product of all x + p, where p is a place of some readings, reduced where it is no element. (Not inlined,
    /// since the programs never come to it.)
    #[inline(never)]
    fn vanishing(&self, n: usize, readings: &[Reading]) -> Result<Option<Word>, AllocError> {
        let places: Word = (0..=255)
            .filter(|place| {
                readings
                    .iter()
                    .any(|reading| self.products.times(1, reading.place) == *place)
            })
            .collect(self.alloc)?;
        let values = (0..=255).take(n).map(|x| {
            places
                .iter()
                .fold(1, |all, place| self.products.times(all, x ^ *place))
        });
        Ok(Some(values.collect(self.alloc)?))
    }

    /// The first n values, of 256 at most, of the polynomial of k coefficients through the first k of some readings, if there are so
    /// many. More than 256 share places: so few different places make one of the powers depend on those below it, before a symbol is
    /// come to, and what is found is the polynomial that vanishes at each.
    pub fn interpolate(
        &self,
        k: usize,
        n: usize,
        readings: &[Reading],
    ) -> Result<Option<Word>, AllocError> {
        let Some(first) = readings.get(..k) else {
            return Ok(None);
        };
        if k > PLACES {
            return self.vanishing(n, first);
        }
        self.through(n, first)
    }

    /// The values through places that are right, if at most t readable places are wrong.
    fn guess(
        &self,
        k: usize,
        t: usize,
        n: usize,
        all: &[Reading],
    ) -> Result<Option<Word>, AllocError> {
        let Some(wrong) = self.locate(k, t, all)? else {
            return Ok(None);
        };
        let right: ArrayVec<Reading, 256> = all
            .iter()
            .copied()
            .filter(|reading| self.value(&wrong, reading.place) != 0)
            .collect(self.alloc)?;
        self.interpolate(k, n, &right)
    }

    /// The codeword of a message of k symbols whose harm is below n - k + 1, with that harm, if there is one.
    pub fn decode(
        &self,
        k: usize,
        word: &[u8],
        marks: &[u8],
    ) -> Result<Option<(usize, Word)>, AllocError> {
        let spare = word.len().saturating_sub(k);
        let blanks = marks.iter().filter(|m| **m != 0).count();
        if blanks > spare {
            return Ok(None);
        }
        let all = readings(self.alloc, word, marks)?;
        let Some(codeword) = self.guess(k, (spare - blanks) / 2, word.len(), &all)? else {
            return Ok(None);
        };
        let wrong = word
            .iter()
            .zip(marks)
            .zip(codeword.as_slice())
            .filter(|((symbol, mark), right)| **mark == 0 && symbol != right)
            .count();
        let harm = blanks.saturating_add(wrong.saturating_mul(2));
        Ok((harm <= spare).then_some((harm, codeword)))
    }
}
