// What holds of every chain, whatever its kind.
ghost use Rattle.std.specs.Prelude.{◌≡◌, IfErr, OnOk, ⊤};
ghost use Rattle.words.specs.Buffers.{checked};
ghost use Rattle.words.specs.Soundness.{Refused, Sound};
ghost use Rattle.chains.specs.Derived.{Derived, Determined};
ghost use Rattle.chains.specs.Promises.{Estimated};
ghost use Rattle.chains.specs.Refusals.{outside};

use crate::chain::{Chain, Estimate};
use words::fault::Fault;

/// Checks a chain. Of one that passes, two rows that agree before a stage are told apart by every reading, so an
/// estimate is the only one, and no distance passes the number of cells.
pub fn check_chain<H: Chain>(chain: &H) -> Result<(), Fault>
    ensures refused { result ≡ checked (H.Chain.refusal chain.now) }
    ensures number { IfErr result (λ f. f ≡ outside) }
    ensures derived { OnOk result (Derived (H.Chain.model chain.now)) }
{
    chain.check()
}

/// The estimate at a stage, which is the only answer that its meaning leaves.
pub fn only_estimate<H: Chain>(
    chain: &H,
    stage: usize,
    labels: &[u8],
    cells: &[u8],
    marks: &[u8],
) -> Result<Option<Estimate>, Fault>
    ensures sound { Sound H.Chain.refusal chain.now → Estimated (H.Chain.model chain.now) stage labels.now cells.now marks.now result }
    ensures refused { Refused (H.Chain.refusal chain.now) result ⊤ }
    ensures determined { Sound H.Chain.refusal chain.now → Determined (H.Chain.model chain.now) stage labels.now cells.now marks.now result }
{
    chain.estimate(stage, labels, cells, marks)
}
