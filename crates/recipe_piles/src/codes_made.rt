// The codes that a recipe names.
ghost use Rattle.std.specs.Prelude.{◌≡◌, ◌<◌, ◌≤◌, length, take};
ghost use Rattle.std.specs.List.{AllByRecursion};
ghost use Rattle.fields.specs.Recipe.{RecipeWidth};
ghost use Rattle.codes.specs.Making.{InRange};
ghost use Rattle.recipes.specs.declared.kinds.CodeKind.TheVariants.{Open as TheOpen, Repetition as the_repetition, ReedSolomon as the_polynomial, ExtendedReedSolomon as the_extension};
ghost use Rattle.recipe_pile_laws.specs.Numbers.{Makeable};
ghost use Rattle.recipe_piles.specs.Made.{IsCode, Lengths, Made, StageHas, StagesHave};

use crate::parts::StageCode;
use codes::open::Open;
use codes::repetition::Repetition;
use either::Either;
use fields::polynomial::Polynomial;
use fields::worked::recipe_extension;
use recipes::kinds::CodeKind;
use recipes::table::Stage;
use reed_solomon::code::ReedSolomon;
use words::fault::Fault;
use words::limits::MOST_STAGES;

fn open_code(width: usize, len: usize) -> Result<StageCode, Fault>
    requires { InRange width len }
    ensures { Made (IsCode TheOpen width len len) result }
{
    Ok(Either::Left(Either::Left(Open::new(width, len)?)))
}

fn repetition_code(width: usize, len: usize) -> Result<StageCode, Fault>
    requires { InRange width len }
    ensures { Made (IsCode the_repetition width len 1) result }
{
    Ok(Either::Left(Either::Right(Repetition::new(width, len)?)))
}

#[tactic(auto, using(reed_solomon_laws::proofs::Fitting::none_of_kind))]
fn polynomial_code(width: u8, len: usize, message_len: usize) -> Result<StageCode, Fault>
    requires { (1 ≤ width) × ((width ≤ 8) × (Lengths width len message_len)) }
    ensures { Made (IsCode the_polynomial width len message_len) result }
{
    let field = Polynomial::new(width)?;
    let code = ReedSolomon::new(field, len, message_len)?;
    Ok(Either::Right(Either::Left(code)))
}

#[tactic(auto, using(fields::proofs::Refusing::none_refused, reed_solomon_laws::proofs::Fitting::none_of_both))]
fn extension_code(width: u8, len: usize, message_len: usize) -> Result<StageCode, Fault>
    requires { (RecipeWidth width) × (Lengths width len message_len) }
    ensures { Made (IsCode the_extension width len message_len) result }
{
    let field = recipe_extension(width)?;
    let code = ReedSolomon::new(field, len, message_len)?;
    Ok(Either::Right(Either::Right(code)))
}

fn make_code(stage: &Stage) -> Result<StageCode, Fault>
    requires { Makeable stage.now }
    ensures { Made (StageHas stage.now) result }
{
    let width = stage.width as u8;
    match stage.kind {
        CodeKind::Open => open_code(stage.width, stage.len),
        CodeKind::ReedSolomon => polynomial_code(width, stage.len, stage.message_len),
        CodeKind::Repetition => repetition_code(stage.width, stage.len),
        CodeKind::ExtendedReedSolomon => extension_code(width, stage.len, stage.message_len),
    }
}

/// The codes of some stages, first to last. What stands behind them has no meaning.
pub(crate) fn make_codes(stages: &[Stage]) -> Result<[StageCode; MOST_STAGES], Fault>
    requires { (AllByRecursion Makeable stages.now) × ((0 < length stages.now) × (length stages.now ≤ 5)) }
    ensures { Made (λ codes. StagesHave stages.now (take (length stages.now) codes)) result }
{
    let first = make_code(&stages[0])?;
    let mut codes = [first; MOST_STAGES];
    // By index, since nothing is known of what a zip of iter_mut wrote. An array needs a value at each place: the first code
    // stands in all until its own is made.
    for (i, stage) in stages.iter().enumerate() {
        codes[i] = make_code(stage)?;
    }
    Ok(codes)
}
