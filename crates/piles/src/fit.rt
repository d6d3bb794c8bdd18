// Whether the parts of a pile are sound and fit each other.
ghost use Rattle.std.specs.Prelude.{◌≡◌, ◌≤◌, map, MatchResult};
ghost use Rattle.std.specs.List.{AllByRecursion};
ghost use Rattle.words.specs.declared.fault.Kind.TheVariants.{UnfitStages};
ghost use Rattle.words.specs.declared.fault.Layer.TheVariants.{Pile as the_pile};
ghost use Rattle.words.specs.Buffers.{checked};
ghost use Rattle.words.specs.Faults.{fault};
ghost use Rattle.words.specs.Soundness.{Sound};
ghost use Rattle.pile_laws.specs.Build.{columns as columns_of};
ghost use Rattle.pile_laws.specs.Fit.{fits_stage, unfit_from};
ghost use Rattle.piles.specs.Sound.{first_refusal, fit_refusal, parts_refusal};

use chains::chain::Chain;
use codes::code::Code;
use words::fault::{Fault, Kind, Layer};
use words::limits::MOST_CELLS;

/// Refuses the first code that is not sound, by that code's own fault.
fn check_codes<A: Code>(codes: &[A]) -> Result<(), Fault>
    ensures { result ≡ checked (first_refusal A.Code.refusal codes.now) }
{
    for code in codes {
        code.check()?;
    }
    Ok(())
}

/// Whether a code fits a stage of the chain, over so many columns.
fn fits<H: Chain, A: Code>(chain: &H, code: &A, stage: usize, columns: usize) -> Result<bool, Fault>
    requires { (Sound H.Chain.refusal chain.now) × ((Sound A.Code.refusal code.now) × (1 ≤ stage)) }
    ensures { MatchResult result (λ b. b ≡ fits_stage (H.Chain.model chain.now) columns stage (A.Code.model code.now)) (λ _. ⊥) }
{
    if stage > chain.stages() {
        return Ok(false);
    }
    let width = chain.width(stage)?;
    Ok(code.width() == width && code.len() == columns)
}

/// The first stage that is missing, extra, of another width or of another length.
fn unfit_stage<H: Chain, A: Code>(
    chain: &H,
    codes: &[A],
    columns: usize,
) -> Result<Option<usize>, Fault>
    requires { (Sound H.Chain.refusal chain.now) × (AllByRecursion (Sound A.Code.refusal) codes.now) }
    ensures { MatchResult result (λ o. o ≡ unfit_from (H.Chain.model chain.now) columns 1 (map A.Code.model codes.now)) (λ _. ⊥) }
{
    for (i, code) in codes.iter().enumerate() {
        if !fits(chain, code, i + 1, columns)? {
            return Ok(Some(i + 1));
        }
    }
    if codes.len() < chain.stages() {
        return Ok(Some(codes.len() + 1));
    }
    Ok(None)
}

/// The number of columns: the length of the first stage's code.
pub(crate) fn count_columns<A: Code>(codes: &[A]) -> usize
    requires { AllByRecursion (Sound A.Code.refusal) codes.now }
    ensures value { result ≡ columns_of (map A.Code.model codes.now) }
    ensures bound { result ≤ 4096 }
{
    codes.first().map_or(0, |code| code.len())
}

fn unfit_at(place: usize) -> Fault
    ensures { result ≡ fault UnfitStages the_pile place }
{
    Fault::new(Kind::UnfitStages, Layer::Pile, place)
}

/// Refuses codes that do not fit the chain: the first such stage, or 0 where only the cells are too many.
fn check_fit<H: Chain, A: Code>(chain: &H, codes: &[A]) -> Result<(), Fault>
    requires { (Sound H.Chain.refusal chain.now) × (AllByRecursion (Sound A.Code.refusal) codes.now) }
    ensures { result ≡ checked (fit_refusal (H.Chain.model chain.now) (map A.Code.model codes.now)) }
{
    let columns = count_columns(codes);
    if let Some(stage) = unfit_stage(chain, codes, columns)? {
        return Err(unfit_at(stage));
    }
    if chain.breadth() * columns > MOST_CELLS {
        return Err(unfit_at(0));
    }
    Ok(())
}

/// Refuses a chain or a code that is not sound, and codes that do not fit the chain.
pub(crate) fn check_parts<H: Chain, A: Code>(chain: &H, codes: &[A]) -> Result<(), Fault>
    ensures { result ≡ checked (parts_refusal H.Chain A.Code chain.now codes.now) }
{
    chain.check()?;
    check_codes(codes)?;
    check_fit(chain, codes)
}
