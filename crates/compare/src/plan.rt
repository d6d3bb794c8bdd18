// Another reading of a recipe's bytes, and another encoder of the pile that it orders.
use crate::field::Field;
use crate::inner::Chain;
use crate::outer::Outer;
use std::alloc::{AllocError, Global};

const MOST_CELLS: usize = 4096;

/// A chain, the columns, and the code of each stage.
#[derive(Drop)]
pub(crate) struct Plan {
    chain: Chain,
    columns: usize,
    codes: Vec<Outer>,
}

/// The number of two bytes, the high one first, at an offset.
fn read_number(bytes: &[u8], at: usize) -> Option<usize> {
    match bytes.get(at..at.saturating_add(2))? {
        [high, low] => Some(usize::from(*high) * 256 + usize::from(*low)),
        _ => None,
    }
}

/// The code that a kind byte orders at a width, if k and n fit it.
fn code_of(
    heap: Global,
    kind: u8,
    width: usize,
    k: usize,
    n: usize,
) -> Result<Option<Outer>, AllocError> {
    let short = 1 <= k && k <= n && n <= 1 << width.min(8);
    let code = match kind {
        0 if k == n => Outer::open(width, n),
        2 if k == 1 => Outer::repetition(width, n),
        1 if short => Outer::reed_solomon(heap, width, Field::Polynomial(width), k, n)?,
        3 if short && width % 2 == 0 => {
            Outer::reed_solomon(heap, width, Field::extension(width), k, n)?
        }
        _ => return Ok(None),
    };
    Ok(Some(code))
}

/// The codes of a chain's stages, if each stage's three bytes order one.
fn codes_of(
    heap: Global,
    chain: Chain,
    columns: usize,
    stages: &[u8],
) -> Result<Option<Vec<Outer>>, AllocError> {
    let mut codes = Vec::new(heap);
    for (i, stage) in stages.chunks(3).enumerate() {
        let (Some(kind), Some(k)) = (stage.first(), read_number(stage, 1)) else {
            return Ok(None);
        };
        let Some(code) = code_of(heap, *kind, chain.width(i), k, columns)? else {
            return Ok(None);
        };
        codes.push(code).map_err(AllocError::from)?;
    }
    Ok(Some(codes))
}

/// The chain, the columns and what follows, if there are as many bytes as the chain has stages for.
fn head_of(bytes: &[u8]) -> Option<(Chain, usize, &[u8])> {
    let chain = Chain::named(*bytes.first()?)?;
    let columns = read_number(bytes, 1)?;
    let stages = bytes.get(3..)?;
    let fits = columns >= 1 && columns.saturating_mul(chain.cells()) <= MOST_CELLS;
    (fits && stages.len() == chain.stages().saturating_mul(3)).then_some((chain, columns, stages))
}

/// A message with a single 1, and its codeword.
#[derive(Drop)]
pub(crate) struct Generator {
    pub(crate) message: Vec<u8>,
    pub(crate) word: Vec<u8>,
}

/// A number's bits, the first the most significant.
pub(crate) fn bits_of(heap: Global, number: usize, len: usize) -> Result<Vec<u8>, AllocError> {
    (0..len)
        .rev()
        .map(|i| u8::from(i < 64 && number >> i & 1 == 1))
        .collect(heap)
}

impl Plan {
    /// What bytes order, if they are a recipe.
    pub(crate) fn read(heap: Global, bytes: &[u8]) -> Result<Option<Plan>, AllocError> {
        let Some((chain, columns, stages)) = head_of(bytes) else {
            return Ok(None);
        };
        let codes = codes_of(heap, chain, columns, stages)?;
        Ok(codes.map(|codes| Plan {
            chain,
            columns,
            codes,
        }))
    }

    /// Puts another plan's pile in place of each code of width 1.
    pub(crate) fn hold(&mut self, heap: Global, inner: &Plan) -> Result<(), AllocError> {
        for code in self.codes.iter_mut() {
            if code.width == 1 {
                *code = inner.listed(heap)?;
            }
        }
        Ok(())
    }

    /// The plan's pile as a code that is the list of its codewords.
    fn listed(&self, heap: Global) -> Result<Outer, AllocError> {
        Ok(Outer::listed(self.message_bits(), self.reach(), self.codewords(heap)?))
    }

    pub(crate) fn chain(&self) -> Chain {
        self.chain
    }

    pub(crate) fn columns(&self) -> usize {
        self.columns
    }

    pub(crate) fn codes(&self) -> &[Outer] {
        self.codes.as_slice()
    }

    pub(crate) fn cells(&self) -> usize {
        self.columns.saturating_mul(self.chain.cells())
    }

    pub(crate) fn message_bits(&self) -> usize {
        self.codes
            .iter()
            .fold(0, |all: usize, code| all.saturating_add(code.bits()))
    }

    /// The least inner times outer distance: corrected is what has less harm.
    pub(crate) fn reach(&self) -> usize {
        self.codes
            .iter()
            .enumerate()
            .map(|(i, code)| self.chain.distance(i).saturating_mul(code.distance))
            .min()
            .unwrap_or(0)
    }

    /// The stages' codewords, of a message's bits.
    fn stage_words(&self, heap: Global, message: &[u8]) -> Result<Vec<Vec<u8>>, AllocError> {
        let mut words = Vec::new(heap);
        let mut rest = message;
        for code in &self.codes {
            let (bits, others) = rest.split_at(code.bits().min(rest.len()));
            let symbols = code.symbols(heap, bits)?;
            let word = code.encode(heap, symbols.as_slice(), self.columns)?;
            words.push(word).map_err(AllocError::from)?;
            rest = others;
        }
        Ok(words)
    }

    /// The codeword of a message, given by its bits.
    pub(crate) fn encode(&self, heap: Global, message: &[u8]) -> Result<Vec<u8>, AllocError> {
        let words = self.stage_words(heap, message)?;
        let mut cells = Vec::new(heap);
        for j in 0..self.columns {
            let labels: Vec<u8> = words
                .iter()
                .map(|word| word.get(j).copied().unwrap_or(0))
                .collect(heap)?;
            self.chain.push_cells(labels.as_slice(), &mut cells)?;
        }
        Ok(cells)
    }

    /// All codewords, in the order of their messages as numbers; for plans of few message bits.
    pub(crate) fn codewords(&self, heap: Global) -> Result<Vec<Vec<u8>>, AllocError> {
        let bits = self.message_bits();
        let mut words = Vec::new(heap);
        for number in 0..1 << bits.min(16) {
            let message = bits_of(heap, number, bits)?;
            let word = self.encode(heap, message.as_slice())?;
            words.push(word).map_err(AllocError::from)?;
        }
        Ok(words)
    }

    /// The messages with a single 1, and their codewords.
    pub(crate) fn generators(&self, heap: Global) -> Result<Vec<Generator>, AllocError> {
        let bits = self.message_bits();
        let mut all = Vec::new(heap);
        for i in 0..bits {
            let message: Vec<u8> = (0..bits).map(|j| u8::from(i == j)).collect(heap)?;
            let word = self.encode(heap, message.as_slice())?;
            all.push(Generator { message, word })
                .map_err(AllocError::from)?;
        }
        Ok(all)
    }
}

#[cfg(test)]
mod tests {
    use super::*;
    use std::test::Fail;

    // Two cells a column: the labels a, b stand as b and then a + b. Stage 1 repeats the first bit, stage 2 is open.
    #[test]
    fn a_message_is_laid_out(rt: HostRuntime) -> Result<(), Fail> {
        let heap = rt.alloc();
        let Some(plan) = Plan::read(heap, &[0x11, 0, 4, 2, 0, 1, 0, 0, 4])? else {
            return Err(Fail::new("a recipe"));
        };
        let word = plan.encode(heap, &[1, 0, 1, 1, 0])?;
        assert!(rt; word.as_slice() == [0, 1, 1, 0, 1, 0, 0, 1].as_slice());
        assert_eq!(rt; plan.reach(), 2);
        Ok(())
    }

    #[test]
    fn other_bytes_are_none(rt: HostRuntime) -> Result<(), Fail> {
        let heap = rt.alloc();
        assert!(rt; Plan::read(heap, &[0x11, 0, 4, 2, 0, 1, 0, 0])?.is_none());
        assert!(rt; Plan::read(heap, &[0x11, 0, 4, 2, 0, 1, 0, 0, 4, 0])?.is_none());
        assert!(rt; Plan::read(heap, &[0x11, 0, 4, 3, 0, 1, 0, 0, 4])?.is_none());
        assert!(rt; Plan::read(heap, &[0x11, 0, 3, 1, 0, 1, 0, 0, 3])?.is_none());
        Ok(())
    }
}
