// Outer codes by their rule alone: how a message becomes a codeword.
use crate::field::Field;
use std::alloc::{AllocError, Global};

/// What a code's codewords are.
#[derive(Drop)]
enum Rule {
    /// Each word is its own message.
    Open,
    /// The symbol, as often as there are columns.
    Repetition,
    /// Sums of a matrix's rows, each times a symbol of the message.
    Matrix { field: Field, rows: Vec<Vec<u8>> },
    /// All codewords, in the order of their messages as numbers.
    Listed(Vec<Vec<u8>>),
}

/// The code of a stage.
#[derive(Drop)]
pub(crate) struct Outer {
    pub(crate) width: usize,
    pub(crate) message_len: usize,
    pub(crate) distance: usize,
    rule: Rule,
}

/// The number that bits spell, the first the most significant.
pub(crate) fn number_of(bits: &[u8]) -> usize {
    bits.iter().fold(0, |all: usize, bit| all.wrapping_mul(2) | usize::from(*bit))
}

/// The product of the differences between x and the places below k, but for one place.
fn differences(field: Field, k: usize, x: u8, left_out: u8) -> u8 {
    (0..=255)
        .take(k)
        .filter(|place| *place != left_out)
        .fold(1, |all, place| field.times(all, x ^ place))
}

/// The values at the first n places of the polynomial that is 1 at one place and 0 at the others below k.
fn lagrange(heap: Global, field: Field, k: usize, n: usize, i: u8) -> Result<Vec<u8>, AllocError> {
    let scale = field.inverse(differences(field, k, i, i));
    (0..=255)
        .take(n)
        .map(|x| field.times(scale, differences(field, k, x, i)))
        .collect(heap)
}

/// Adds a row times a symbol to a word.
fn add_scaled(field: Field, word: &mut [u8], symbol: u8, row: &[u8]) {
    for (x, y) in word.iter_mut().zip(row) {
        *x ^= field.times(symbol, *y);
    }
}

fn sum_rows(
    heap: Global,
    field: Field,
    rows: &[Vec<u8>],
    message: &[u8],
    n: usize,
) -> Result<Vec<u8>, AllocError> {
    let mut word = vec![in heap; 0; n]?;
    for (symbol, row) in message.iter().zip(rows) {
        add_scaled(field, &mut word, *symbol, row.as_slice());
    }
    Ok(word)
}

impl Outer {
    pub(crate) fn open(width: usize, n: usize) -> Outer {
        Outer {
            width,
            message_len: n,
            distance: 1,
            rule: Rule::Open,
        }
    }

    pub(crate) fn repetition(width: usize, n: usize) -> Outer {
        Outer {
            width,
            message_len: 1,
            distance: n,
            rule: Rule::Repetition,
        }
    }

    /// A Reed-Solomon code, by the rows that the messages with a single 1 encode to.
    pub(crate) fn reed_solomon(
        heap: Global,
        width: usize,
        field: Field,
        k: usize,
        n: usize,
    ) -> Result<Outer, AllocError> {
        let mut rows = Vec::new(heap);
        for i in (0..=255).take(k) {
            rows.push(lagrange(heap, field, k, n, i)?)
                .map_err(AllocError::from)?;
        }
        Ok(Outer {
            width,
            message_len: k,
            distance: n.saturating_sub(k).saturating_add(1),
            rule: Rule::Matrix { field, rows },
        })
    }

    /// A code of width 1 whose codewords are given, in the order of their messages as numbers.
    pub(crate) fn listed(message_len: usize, distance: usize, codewords: Vec<Vec<u8>>) -> Outer {
        Outer {
            width: 1,
            message_len,
            distance,
            rule: Rule::Listed(codewords),
        }
    }

    /// The field of a Reed-Solomon code.
    pub(crate) fn field(&self) -> Option<Field> {
        match &self.rule {
            Rule::Matrix { field, .. } => Some(*field),
            _ => None,
        }
    }

    /// Whether each word is a codeword.
    pub(crate) fn is_open(&self) -> bool {
        matches!(&self.rule, Rule::Open)
    }

    /// The bits of a message.
    pub(crate) fn bits(&self) -> usize {
        self.message_len.saturating_mul(self.width)
    }

    /// The symbols that a message's bits spell.
    pub(crate) fn symbols(&self, heap: Global, bits: &[u8]) -> Result<Vec<u8>, AllocError> {
        bits.chunks(self.width.max(1))
            .map(|bits| (number_of(bits) & 0xff) as u8)
            .collect(heap)
    }

    /// The codeword of a message over n columns.
    pub(crate) fn encode(
        &self,
        heap: Global,
        message: &[u8],
        n: usize,
    ) -> Result<Vec<u8>, AllocError> {
        match &self.rule {
            Rule::Open => Vec::from_slice(heap, message),
            Rule::Repetition => {
                let symbol = message.first().copied().unwrap_or(0);
                Ok(vec![in heap; symbol; n]?)
            }
            Rule::Matrix { field, rows } => sum_rows(heap, *field, rows.as_slice(), message, n),
            Rule::Listed(codewords) => match codewords.get(number_of(message)) {
                Some(codeword) => codeword.clone(),
                None => Ok(Vec::new(heap)),
            },
        }
    }
}

#[cfg(test)]
mod tests {
    use super::*;
    use std::test::Fail;

    // The polynomial with the values 0 and 1 at the first two places is x itself.
    #[test]
    fn a_line_is_its_values(rt: HostRuntime) -> Result<(), Fail> {
        let heap = rt.alloc();
        let code = Outer::reed_solomon(heap, 3, Field::Polynomial(3), 2, 8)?;
        let word = code.encode(heap, &[0, 1], 8)?;
        assert!(rt; word.as_slice() == [0, 1, 2, 3, 4, 5, 6, 7].as_slice());
        assert_eq!(rt; code.distance, 7);
        Ok(())
    }
}
