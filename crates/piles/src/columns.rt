// The columns of a pile: the labels that the stages' codewords have in one, and the cells that they stand for. The codewords lie
// one behind the other in one row; how long each is is the number of columns, which belongs to the pile and not to the row.
ghost use Rattle.std.specs.Prelude.{◌≡◌, ℕ, ◌*◌, ◌<◌, ◌≤◌, length, MatchResult};
ghost use Rattle.words.specs.Soundness.{Sound};
ghost use Rattle.chains.specs.Model.{Row};
ghost use Rattle.pile_laws.specs.Build.{labels_at, laid};
ghost use Rattle.pile_laws.specs.Flat.{words_in};

use chains::chain::Chain;
use words::fault::Fault;
use words::limits::MOST_STAGES;

/// Takes the labels of column j out of the stages' codewords.
pub(crate) fn gather(words: &[u8], columns: usize, j: usize, labels: &mut [u8])
    requires { (j < columns) × (columns * length labels.old ≤ length words.now) }
    ensures { labels.new ≡ labels_at (words_in columns (length labels.old) words.now) j }
{
    for (k, label) in labels.iter_mut().enumerate() {
        *label = words[columns * k + j];
    }
}

/// Fills the cells of column j with the chain's word of its labels.
fn lay_column<H: Chain>(
    chain: &H,
    words: &[u8],
    columns: usize,
    j: usize,
    cells: &mut [u8],
) -> Result<(), Fault>
    requires { (Sound H.Chain.refusal chain.now) × ((j < columns) × ((columns * (H.Chain.model chain.now).stages ≤ length words.now) × ((length cells.old ≡ (H.Chain.model chain.now).breadth) × (Row (H.Chain.model chain.now) (labels_at (words_in columns (H.Chain.model chain.now).stages words.now) j))))) }
    ensures { MatchResult result (λ _. cells.new ≡ (H.Chain.model chain.now).word (labels_at (words_in columns (H.Chain.model chain.now).stages words.now) j)) (λ _. ⊥) }
{
    let mut room = [0; MOST_STAGES];
    let labels = &mut room[..chain.stages()];
    gather(words, columns, j, labels);
    chain.word_of(labels, cells)
}

/// Fills the cells of all columns, one behind the other.
pub(crate) fn lay_columns<H: Chain>(
    chain: &H,
    words: &[u8],
    columns: usize,
    cells: &mut [u8],
) -> Result<(), Fault>
    requires { (Sound H.Chain.refusal chain.now) × ((columns * (H.Chain.model chain.now).stages ≤ length words.now) × ((length cells.old ≡ (H.Chain.model chain.now).breadth * columns) × (((j : ℕ) → j < columns → Row (H.Chain.model chain.now) (labels_at (words_in columns (H.Chain.model chain.now).stages words.now) j))))) }
    ensures { MatchResult result (λ _. cells.new ≡ laid (H.Chain.model chain.now) columns (words_in columns (H.Chain.model chain.now).stages words.now)) (λ _. ⊥) }
{
    let breadth = chain.breadth();
    // By index: of what `chunks_mut` lends, a proof knows nothing afterwards.
    for j in 0..columns {
        let start = breadth * j;
        lay_column(chain, words, columns, j, &mut cells[start..start + breadth])?;
    }
    Ok(())
}
