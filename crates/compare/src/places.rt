// The stage rule by its definition: a look at every row of a column, and at every codeword of a stage. Where those are many, the columns
// that are read worst are made blank at each threshold, and the codeword is found by elimination.
use crate::inner::Chain;
use crate::outer::Outer;
use crate::plan::{Plan, bits_of};
use by_elimination::arithmetic::Products;
use by_elimination::decoder::{Decoder, Word};
use std::alloc::{AllocError, Global};

/// The most message bits of a stage of which all codewords are looked at.
const FEW_BITS: usize = 11;

/// A column's cells, which of them are readable, and how many are blank.
#[derive(Clone, Copy)]
struct Column {
    cells: u16,
    readable: u16,
    blanks: usize,
}

/// A row's cells, and its label at the stage that is looked at.
#[derive(Clone, Copy)]
struct Row {
    cells: u16,
    label: u8,
}

/// What a column shows at a stage: the label of the nearest row, and its harm.
#[derive(Clone, Copy)]
struct Estimate {
    label: u8,
    harm: usize,
}

/// How the codewords of a stage are found.
#[derive(Drop)]
enum Codewords {
    /// Each word is one.
    Open,
    /// All of them.
    Few(Vec<Vec<u8>>),
    /// Those of a Reed-Solomon code, by its field's products.
    Many(Box<Products>),
}

/// A stage: its rows and their distance, the cells that each label adds, and its code.
#[derive(Drop)]
struct Stage {
    rows: Vec<Row>,
    inner: usize,
    adds: Vec<u16>,
    codewords: Codewords,
    message_len: usize,
    outer: usize,
}

/// The stages of a plan, and how many cells a column has.
#[derive(Drop)]
pub(crate) struct Stages {
    stages: Vec<Stage>,
    breadth: usize,
}

/// Cells as a number whose bit p is cell p.
fn packed(cells: &[u8]) -> u16 {
    cells.iter().rev().fold(
        0,
        |all: u16, cell| all.wrapping_mul(2) | u16::from(*cell & 1),
    )
}

/// The cells of a row that has a number's bits as the labels from a stage on, and zeros before.
fn row_of(heap: Global, chain: Chain, stage: usize, number: usize) -> Result<Row, AllocError> {
    let mut labels = vec![in heap; 0; chain.stages()]?;
    let mut rest = number;
    for (i, label) in labels.iter_mut().enumerate().skip(stage).rev() {
        let size = 1 << chain.width(i).min(8);
        *label = (rest % size & 0xff) as u8;
        rest /= size;
    }
    let mut cells = Vec::new(heap);
    chain.push_cells(labels.as_slice(), &mut cells)?;
    Ok(Row {
        cells: packed(cells.as_slice()),
        label: labels.get(stage).copied().unwrap_or(0),
    })
}

/// All rows that have zeros before a stage.
fn rows_of(heap: Global, chain: Chain, stage: usize) -> Result<Vec<Row>, AllocError> {
    let bits = (stage..chain.stages()).fold(0, |all: usize, i| all.saturating_add(chain.width(i)));
    let mut rows = Vec::new(heap);
    for number in 0..1 << bits.min(16) {
        rows.push(row_of(heap, chain, stage, number)?)?;
    }
    Ok(rows)
}

/// The cells that each label of a stage adds to a row.
fn adds_of(heap: Global, chain: Chain, stage: usize) -> Result<Vec<u16>, AllocError> {
    let after = (stage.saturating_add(1)..chain.stages()).fold(
        0,
        |all: usize, i| all.saturating_add(chain.width(i)),
    );
    let mut adds = Vec::new(heap);
    for label in 0..1usize << chain.width(stage).min(8) {
        adds.push(row_of(heap, chain, stage, label << after.min(16))?.cells)?;
    }
    Ok(adds)
}

/// The codeword of a message whose bits spell a number.
fn codeword_of(
    heap: Global,
    code: &Outer,
    number: usize,
    columns: usize,
) -> Result<Vec<u8>, AllocError> {
    let bits = bits_of(heap, number, code.bits())?;
    let symbols = code.symbols(heap, bits.as_slice())?;
    code.encode(heap, symbols.as_slice(), columns)
}

impl Codewords {
    fn of(heap: Global, code: &Outer, columns: usize) -> Result<Codewords, AllocError> {
        if code.is_open() {
            return Ok(Codewords::Open);
        }
        if code.bits() > FEW_BITS
            && let Some(field) = code.field()
        {
            let products = Box::new(heap, Products::new(field.rule())).map_err(AllocError::from)?;
            return Ok(Codewords::Many(products));
        }
        let mut words = Vec::new(heap);
        for number in 0..1 << code.bits().min(FEW_BITS) {
            let word = codeword_of(heap, code, number, columns)?;
            words.push(word).map_err(AllocError::from)?;
        }
        Ok(Codewords::Few(words))
    }
}

impl Column {
    fn of(cells: &[u8], marks: &[u8]) -> Column {
        let blank = packed(marks);
        Column {
            cells: packed(cells),
            readable: !blank,
            blanks: blank.count_ones() as usize,
        }
    }

    fn harm(self, row: Row) -> usize {
        let wrong = ((self.cells ^ row.cells) & self.readable).count_ones() as usize;
        wrong.saturating_mul(2).saturating_add(self.blanks)
    }
}

impl Stage {
    fn of(heap: Global, plan: &Plan, i: usize, code: &Outer) -> Result<Stage, AllocError> {
        Ok(Stage {
            rows: rows_of(heap, plan.chain(), i)?,
            inner: plan.chain().distance(i),
            adds: adds_of(heap, plan.chain(), i)?,
            codewords: Codewords::of(heap, code, plan.columns())?,
            message_len: code.message_len,
            outer: code.distance,
        })
    }

    /// The estimate of a column from which the labels decided before are taken off.
    fn estimate(&self, column: Column) -> Option<Estimate> {
        self.rows
            .iter()
            .map(|row| Estimate {
                label: row.label,
                harm: column.harm(*row),
            })
            .min_by_key(|estimate| estimate.harm)
            .filter(|estimate| estimate.harm < self.inner)
    }

    fn score_at(&self, estimate: Option<Estimate>, symbol: u8) -> usize {
        match estimate {
            None => self.inner,
            Some(Estimate { label, harm }) if label == symbol => harm,
            Some(Estimate { harm, .. }) => self.inner.saturating_mul(2).saturating_sub(harm),
        }
    }

    /// Whether a word scores below the inner times the outer distance.
    fn accepts(&self, estimates: &[Option<Estimate>], word: &[u8]) -> bool {
        let score = estimates
            .iter()
            .zip(word)
            .fold(0, |all: usize, (estimate, symbol)| {
                all.saturating_add(self.score_at(*estimate, *symbol))
            });
        word.len() == estimates.len() && score < self.inner.saturating_mul(self.outer)
    }

    /// The codeword that is found at a threshold, if that is the choice.
    fn try_threshold(
        &self,
        heap: Global,
        products: &Products,
        estimates: &[Option<Estimate>],
        labels: &[u8],
        threshold: usize,
    ) -> Result<Option<Word>, AllocError> {
        let marks: Vec<u8> = estimates
            .iter()
            .map(|estimate| u8::from(estimate.is_none_or(|e| e.harm >= threshold)))
            .collect(heap)?;
        let decoder = Decoder {
            alloc: heap,
            products,
        };
        let found = decoder.decode(self.message_len, labels, marks.as_slice())?;
        Ok(
            found
                .map(|(_, word)| word)
                .filter(|word| self.accepts(estimates, word.as_slice())),
        )
    }

    /// The choice among many codewords.
    fn search(
        &self,
        heap: Global,
        products: &Products,
        estimates: &[Option<Estimate>],
        labels: &[u8],
    ) -> Result<Option<Vec<u8>>, AllocError> {
        for threshold in 1..self.inner.saturating_add(1) {
            let found = self.try_threshold(heap, products, estimates, labels, threshold)?;
            if let Some(word) = found {
                return Ok(Some(Vec::from_slice(heap, word.as_slice())?));
            }
        }
        Ok(None)
    }

    /// The codeword that scores below the bound, if there is one.
    fn choose(
        &self,
        heap: Global,
        estimates: &[Option<Estimate>],
    ) -> Result<Option<Vec<u8>>, AllocError> {
        let labels: Vec<u8> = estimates
            .iter()
            .map(|estimate| estimate.map_or(0, |e| e.label))
            .collect(heap)?;
        match &self.codewords {
            Codewords::Open if self.accepts(estimates, labels.as_slice()) => Ok(Some(labels)),
            Codewords::Open => Ok(None),
            Codewords::Few(words) => {
                match words
                    .iter()
                    .find(|word| self.accepts(estimates, word.as_slice()))
                {
                    Some(word) => Ok(Some(word.clone()?)),
                    None => Ok(None),
                }
            }
            Codewords::Many(products) => self.search(heap, products, estimates, labels.as_slice()),
        }
    }

    /// Takes a choice off the columns, so that those rows are left which begin with it.
    fn take_off(&self, columns: &mut [Column], word: &[u8]) {
        for (column, label) in columns.iter_mut().zip(word) {
            column.cells ^= self.adds.get(usize::from(*label)).copied().unwrap_or(0);
        }
    }
}

impl Stages {
    pub(crate) fn new(heap: Global, plan: &Plan) -> Result<Stages, AllocError> {
        let mut stages = Vec::new(heap);
        for (i, code) in plan.codes().iter().enumerate() {
            stages
                .push(Stage::of(heap, plan, i, code)?)
                .map_err(AllocError::from)?;
        }
        Ok(Stages {
            stages,
            breadth: plan.chain().cells(),
        })
    }

    /// The number of the first stage of a word that has no choice, and 0 where all have one.
    pub(crate) fn without_choice(
        &self,
        heap: Global,
        word: &[u8],
        marks: &[u8],
    ) -> Result<usize, AllocError> {
        let breadth = self.breadth.max(1);
        let mut columns: Vec<Column> = word
            .chunks(breadth)
            .zip(marks.chunks(breadth))
            .map(|(cells, marks)| Column::of(cells, marks))
            .collect(heap)?;
        for (i, stage) in self.stages.iter().enumerate() {
            let estimates: Vec<Option<Estimate>> = columns
                .iter()
                .map(|column| stage.estimate(*column))
                .collect(heap)?;
            let Some(choice) = stage.choose(heap, estimates.as_slice())? else {
                return Ok(i.saturating_add(1));
            };
            stage.take_off(&mut columns, choice.as_slice());
        }
        Ok(0)
    }
}

#[cfg(test)]
mod tests {
    use super::*;
    use std::test::Fail;

    // Two cells a column: the labels a, b stand as b and then a + b. Stage 1 repeats a bit over inner distance 1: two columns against two score 4 for
    // each of both codewords, which is the bound. Stage 2 is open over inner distance 2: the first column's 1 1 lies at harm 2 from both rows
    // that begin with the label 1, so that it has no estimate.
    #[test]
    fn the_first_stage_without_a_choice(rt: HostRuntime) -> Result<(), Fail> {
        let heap = rt.alloc();
        let Some(plan) = Plan::read(heap, &[0x11, 0, 4, 2, 0, 1, 0, 0, 4])? else {
            return Err(Fail::new("a recipe"));
        };
        let stages = Stages::new(heap, &plan)?;
        let tied = stages.without_choice(heap, &[0, 0, 0, 0, 0, 1, 0, 1], &[0; 8])?;
        assert_eq!(rt; tied, 1);
        let hidden = stages.without_choice(heap, &[1, 1, 1, 0, 1, 0, 0, 1], &[0; 8])?;
        assert_eq!(rt; hidden, 2);
        let codeword = stages.without_choice(heap, &[0, 1, 1, 0, 1, 0, 0, 1], &[0; 8])?;
        assert_eq!(rt; codeword, 0);
        Ok(())
    }
}
