// What a recipe orders of a memory: the code of its pages, and how many cells they have.
ghost use Rattle.std.specs.Prelude.{◌≡◌, MatchResult, Some};
ghost use Rattle.recipes.specs.Meaning.{Describes};
ghost use Rattle.recipes.specs.Rules.{SingleMeaning, recipe_refusal};
ghost use Rattle.player.specs.Pages.{LayoutOf};

use recipe_piles::making::pile_of;
use recipe_piles::parts::RecipePile;
use recipes::recipe::Recipe;
use words::fault::Fault;

/// The code of a recipe's pages and the number of their cells.
#[derive(Clone, Copy)]
pub(crate) struct Layout {
    pub code: RecipePile,
    pub cells: usize,
}

impl Layout {
    /// That of the recipe in these bytes.
    pub(crate) fn read(recipe: &[u8]) -> Result<Self, Fault>
        ensures reads { MatchResult result (LayoutOf recipe.now) (λ f. recipe_refusal recipe.now ≡ Some f) }
        ensures single { SingleMeaning recipe.now }
    {
        let recipe = Recipe::read(recipe)?;
        Ok(Layout {
            code: pile_of(&recipe)?,
            cells: recipe.cells(),
        })
    }
}
