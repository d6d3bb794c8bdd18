// The fields of a recipe's bytes, each checked for its presence before its own rule.
ghost use Rattle.std.specs.Prelude.{◌≡◌, ◌+◌, ◌*◌, ◌<◌, ◌≤◌, true, length, Some, None, MatchResult, slice_index};
ghost use Rattle.words.specs.declared.fault.Kind.TheVariants.{RecipeEnds, BytesLeftOver};
ghost use Rattle.words.specs.declared.fault.Layer.TheVariants.{Recipe as the_recipe};
ghost use Rattle.words.specs.Faults.{fault};
ghost use Rattle.recipes.specs.Chains.{Known, chain_named, cells_of, stages_of, width_at};
ghost use Rattle.recipes.specs.Codes.{fits_kind};
ghost use Rattle.recipes.specs.Meaning.{two_bytes};
ghost use Rattle.recipes.specs.Rules.{first_broken, chain_rules, stage_rules, kind_at, recipe_refusal};

use crate::kinds::{ChainKind, CodeKind};
use words::fault::{Fault, Kind, Layer};
use words::limits::MOST_CELLS;

fn refused(kind: Kind, place: usize) -> Fault
    ensures { result ≡ fault kind the_recipe place }
{
    Fault::new(kind, Layer::Recipe, place)
}

// Refuses bytes that end before the offset `end`.
fn check_reaches(bytes: &[u8], end: usize) -> Result<(), Fault>
    ensures { MatchResult result (λ _. end ≤ length bytes.now) (λ f. (length bytes.now < end) × (f ≡ fault RecipeEnds the_recipe (length bytes.now))) }
{
    let len = bytes.len();
    if len < end {
        Err(refused(Kind::RecipeEnds, len))
    } else {
        Ok(())
    }
}

fn number_at(bytes: &[u8], at: usize) -> usize
    requires { at + 1 < length bytes.now }
    ensures { result ≡ two_bytes bytes.now at }
{
    usize::from(u16::from_be_bytes([bytes[at], bytes[at + 1]]))
}

pub(crate) fn read_chain(bytes: &[u8]) -> Result<ChainKind, Fault>
    ensures { MatchResult result (λ h. (1 ≤ length bytes.now) × (chain_named (slice_index bytes.now 0) ≡ Some h)) (λ f. recipe_refusal bytes.now ≡ Some f) }
{
    check_reaches(bytes, 1)?;
    ChainKind::named(bytes[0]).ok_or(refused(Kind::UnknownChain, 0))
}

pub(crate) fn read_columns(bytes: &[u8], chain: ChainKind) -> Result<usize, Fault>
    requires { Known chain }
    ensures { MatchResult result (λ n. (3 ≤ length bytes.now) × (n ≡ two_bytes bytes.now 1) × (0 < n) × (cells_of chain * n ≤ 4096)) (λ f. first_broken (chain_rules bytes.now (Some chain)) ≡ Some f) }
{
    check_reaches(bytes, 3)?;
    let columns = number_at(bytes, 1);
    if columns == 0 || chain.cells() * columns > MOST_CELLS {
        return Err(refused(Kind::Columns, 1));
    }
    Ok(columns)
}

/// The two fields of a stage.
#[derive(Clone, Copy)]
pub(crate) struct StageFields {
    pub kind: CodeKind,
    pub message_len: usize,
}

pub(crate) fn read_stage(
    bytes: &[u8],
    chain: ChainKind,
    columns: usize,
    i: usize,
) -> Result<StageFields, Fault>
    requires { (Known chain) × ((i < stages_of chain) × (columns ≡ two_bytes bytes.now 1)) }
    ensures { MatchResult result (λ s. (6 + 3 * i ≤ length bytes.now) × (kind_at bytes.now chain i ≡ Some s.kind) × (s.message_len ≡ two_bytes bytes.now (4 + 3 * i)) × (fits_kind s.kind (width_at chain i) columns s.message_len ≡ true)) (λ f. first_broken (stage_rules bytes.now chain i) ≡ Some f) }
{
    let at = 3 + 3 * i;
    check_reaches(bytes, at + 1)?;
    let width = chain.width(i);
    let Some(kind) = CodeKind::named(bytes[at], width) else {
        return Err(refused(Kind::StageKind, at));
    };
    check_reaches(bytes, at + 3)?;
    let message_len = number_at(bytes, at + 1);
    if !kind.fits(width, columns, message_len) {
        return Err(refused(Kind::StageSize, at + 1));
    }
    Ok(StageFields { kind, message_len })
}

pub(crate) fn check_end(bytes: &[u8], end: usize) -> Result<(), Fault>
    ensures { MatchResult result (λ _. length bytes.now ≤ end) (λ f. (end < length bytes.now) × (f ≡ fault BytesLeftOver the_recipe end)) }
{
    if end < bytes.len() {
        return Err(refused(Kind::BytesLeftOver, end));
    }
    Ok(())
}
