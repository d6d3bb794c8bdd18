// The chain that a recipe names.
ghost use Rattle.recipes.specs.Chains.{Known};
ghost use Rattle.recipe_pile_laws.specs.Named.{named_chain};
ghost use Rattle.recipe_piles.specs.Made.{IsChain, Made};

use crate::parts::RecipeChain;
use chains::even::Even;
use chains::reed_muller::ReedMuller;
use either::Either;
use recipes::kinds::ChainKind;
use words::fault::Fault;

pub(crate) fn make_chain(kind: ChainKind) -> Result<RecipeChain, Fault>
    requires { Known kind }
    ensures { Made (IsChain (named_chain kind)) result }
{
    match kind {
        ChainKind::ReedMuller(r) => Ok(Either::Left(ReedMuller::new(r)?)),
        ChainKind::Even(n) => Ok(Either::Right(Even::new(n)?)),
    }
}
