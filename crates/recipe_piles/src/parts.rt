// The types of the parts that recipes name.
ghost use Rattle.std.specs.Prelude.{◌≤◌};

use chains::even::Even;
use chains::reed_muller::ReedMuller;
use codes::open::Open;
use codes::repetition::Repetition;
use either::Either;
use fields::extension::Extension;
use fields::polynomial::Polynomial;
use piles::pile::Pile;
use reed_solomon::code::ReedSolomon;
use words::limits::MOST_STAGES;

/// A chain that a recipe can name.
pub type RecipeChain = Either<ReedMuller, Even>;

/// A code that a recipe can name for a stage.
pub type StageCode = Either<
    Either<Open, Repetition>,
    Either<ReedSolomon<Polynomial>, ReedSolomon<Extension<Polynomial>>>,
>;

/// The pile of a recipe: one type for every recipe, and a code.
pub type RecipePile = Pile<RecipeChain, StageCode>;

/// A chain, and a code for each of its stages.
#[derive(Clone, Copy)]
pub struct Parts {
    pub chain: RecipeChain,
    // An array and how much of it is used, as in a pile; but these parts are made and not yet checked against each other.
    pub(crate) codes: [StageCode; MOST_STAGES],
    pub(crate) stages: usize,
    ghost few: { stages ≤ 5 },
}
