// The library's pile of recipes that stand one in the other.
use crate::failure::Failure;
use codes::code::Code;
use either::Either;
use piles::pile::Pile;
use recipe_piles::making::parts_of;
use recipe_piles::parts::{RecipeChain, StageCode};
use recipes::recipe::Recipe;
use std::alloc::Global;

/// A recipe's pile whose codes of width 1 may be of another type.
pub(crate) type Nest<A> = Pile<RecipeChain, Either<A, StageCode>>;

/// The pile of a recipe, with a code in place of each code of width 1.
pub(crate) fn nest<A: Code + Copy>(
    heap: Global,
    recipe: &Recipe,
    inner: A,
) -> Result<Nest<A>, Failure> {
    let parts = parts_of(recipe)?;
    let codes: Vec<Either<A, StageCode>> = parts
        .codes()
        .iter()
        .map(|code| {
            if code.width() == 1 {
                Either::Left(inner)
            } else {
                Either::Right(*code)
            }
        })
        .collect(heap)?;
    Ok(Pile::new(parts.chain, codes.as_slice())?)
}
