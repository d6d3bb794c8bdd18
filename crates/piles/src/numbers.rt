// The numbers of a pile whose parts are sound and fit: message bits and reach.
ghost use Rattle.std.specs.Prelude.{◌≡◌, ◌*◌, ◌≤◌, map, length, MatchResult};
ghost use Rattle.std.specs.List.{AllByRecursion};
ghost use Rattle.words.specs.Soundness.{Sound};
ghost use Rattle.chains.specs.Model.{Stage};
ghost use Rattle.pile_laws.specs.Build.{stage_bits, total_bits, reach as reach_of};
ghost use Rattle.pile_laws.specs.Fit.{Fits};

use chains::chain::Chain;
use codes::code::Code;
use words::fault::Fault;

/// The bits of a stage's message.
pub(crate) fn bits_of<A: Code>(code: &A) -> usize
    requires { Sound A.Code.refusal code.now }
    ensures value { result ≡ stage_bits (A.Code.model code.now) }
    ensures bound { result ≤ 32768 }
{
    code.message_len() * code.width()
}

/// K: the bits of a pile's message. Recipes count these and the reach over their records, before there is a code to ask;
/// recipe_piles promises that both agree.
pub(crate) fn count_bits<A: Code>(codes: &[A]) -> usize
    requires { (AllByRecursion (Sound A.Code.refusal) codes.now) × (length codes.now ≤ 5) }
    ensures { result ≡ total_bits (map A.Code.model codes.now) }
{
    // No sum of a chain: that each code is sound would have to be handed to its closure at each turn.
    let mut bits = 0;
    for code in codes {
        bits += bits_of(code);
    }
    bits
}

/// A stage's inner times outer distance.
fn stage_reach<H: Chain, A: Code>(chain: &H, code: &A, stage: usize) -> Result<usize, Fault>
    requires { (Sound H.Chain.refusal chain.now) × ((Sound A.Code.refusal code.now) × (Stage (H.Chain.model chain.now) stage)) }
    ensures { MatchResult result (λ d. d ≡ (H.Chain.model chain.now).distance stage * (A.Code.model code.now).distance) (λ _. ⊥) }
{
    let inner = chain.distance(stage)?;
    Ok(inner * code.distance())
}

/// D: the least inner times outer distance over the stages.
pub(crate) fn least_reach<H: Chain, A: Code>(chain: &H, codes: &[A]) -> Result<usize, Fault>
    requires { (Sound H.Chain.refusal chain.now) × ((AllByRecursion (Sound A.Code.refusal) codes.now) × (Fits (H.Chain.model chain.now) (map A.Code.model codes.now))) }
    ensures { MatchResult result (λ d. d ≡ reach_of (H.Chain.model chain.now) (map A.Code.model codes.now)) (λ _. ⊥) }
{
    // No fold, since each reach may be refused; it begins with that of stage 1, which bounds the least.
    let mut reach = stage_reach(chain, &codes[0], 1)?;
    for (i, code) in codes.iter().enumerate() {
        reach = reach.min(stage_reach(chain, code, i + 1)?);
    }
    Ok(reach)
}
