// The examples of the Reed-Muller chain of eight cells.
ghost use Rattle.std.specs.Prelude.{◌≡◌, [], ◌∷◌, Some, None, Ok};
ghost use Rattle.chains.specs.Examples.{near_estimate};

use chains::chain::{Chain, Estimate};
use chains::derived::only_estimate;
use chains::reed_muller::ReedMuller;
use words::fault::Fault;

/// The word of the labels 0 4 0 0.
pub(crate) fn word_of_labels() -> Result<[u8; 8], Fault>
    ensures { result ≡ Ok (0 ∷ 0 ∷ 0 ∷ 1 ∷ 0 ∷ 0 ∷ 0 ∷ 1 ∷ []) }
{
    let chain = ReedMuller::new(3)?;
    let mut cells = [0; 8];
    chain.word_of(&[0, 4, 0, 0], &mut cells)?;
    Ok(cells)
}

/// The estimate of 1 1 1 1 1 0 0 0 at stage 4 after zeros.
pub(crate) fn near() -> Result<Option<Estimate>, Fault>
    ensures { result ≡ Ok (Some near_estimate) }
{
    let chain = ReedMuller::new(3)?;
    only_estimate(&chain, 4, &[0; 3], &[1, 1, 1, 1, 1, 0, 0, 0], &[0; 8])
}

/// The estimate of 1 1 1 1 0 0 0 0 there.
pub(crate) fn midway() -> Result<Option<Estimate>, Fault>
    ensures { result ≡ Ok None }
{
    let chain = ReedMuller::new(3)?;
    only_estimate(&chain, 4, &[0; 3], &[1, 1, 1, 1, 0, 0, 0, 0], &[0; 8])
}
