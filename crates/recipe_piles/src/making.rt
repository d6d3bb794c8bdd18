// The parts of the pile that a recipe describes. A recipe that was read describes one, so none is refused.
ghost use Rattle.std.specs.Prelude.{◌≡◌, ◌≤◌, take};
ghost use Rattle.recipe_pile_laws.specs.Named.{named_chain};
ghost use Rattle.recipe_piles.specs.Made.{IsChain, Made, MakesPile, PartsOf, PileOf};
ghost use Rattle.recipe_piles.specs.Parts.{codes_of};

use crate::chains_made::make_chain;
use crate::codes_made::make_codes;
use crate::parts::{Parts, RecipeChain, RecipePile, StageCode};
use chains::chain::Chain;
use codes::code::Code;
use piles::pile::Pile;
use recipes::recipe::Recipe;
use words::fault::Fault;
use words::limits::MOST_STAGES;

impl Parts {
    // The codes behind those of the stages have no meaning.
    fn new(chain: RecipeChain, codes: [StageCode; MOST_STAGES], stages: usize) -> Self
        requires { stages ≤ 5 }
        ensures chain { result.chain ≡ chain }
        ensures codes { codes_of result ≡ take stages codes }
    {
        Parts {
            chain,
            codes,
            stages,
        }
    }

    /// The code of each stage, first to last.
    pub fn codes(&self) -> &[StageCode]
        ensures { result.now ≡ codes_of self.now }
    {
        &self.codes[0..self.stages]
    }

    // The pile of these parts.
    fn join(&self) -> Result<RecipePile, Fault>
        ensures { MakesPile self.now result }
    {
        Pile::new(self.chain, self.codes())
    }
}

/// The chain that a recipe names.
#[tactic(auto, using(recipes::proofs::Bounds::known_chain))]
pub fn chain_of(recipe: &Recipe) -> Result<RecipeChain, Fault>
    ensures { Made (IsChain (named_chain recipe.now.table.chain)) result }
{
    make_chain(recipe.chain())
}

/// The chain and the codes that a recipe names. They fit, and the pile that they make has the recipe's cells, message bits and
/// reach.
pub fn parts_of(recipe: &Recipe) -> Result<Parts, Fault>
    ensures { Made (PartsOf recipe.now.table) result }
{
    let chain = chain_of(recipe)?;
    let stages = recipe.stages();
    let codes = make_codes(stages)?;
    Ok(Parts::new(chain, codes, stages.len()))
}

/// The pile that a recipe describes. It is sound, and has the recipe's cells, message bits and reach.
#[tactic(auto, using(crate::proofs::Joined::pile_made))]
pub fn pile_of(recipe: &Recipe) -> Result<RecipePile, Fault>
    ensures { Made (PileOf recipe.now.table) result }
{
    let parts = parts_of(recipe)?;
    parts.join()
}
