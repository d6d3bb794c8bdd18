// The recipe that a text writes.
ghost use Rattle.std.specs.Prelude.{IfOk};
ghost use Rattle.recipe_texts.specs.Telling.{Tells};

use crate::hex;
use recipes::recipe::Recipe;
use std::alloc::{AllocError, Global};
use thiserror::Error;
use words::fault::Fault;

/// Why a text gives no recipe.
#[derive(Debug, Drop, Error)]
pub enum TextError {
    #[error("{0}")]
    Refused(Fault),
    #[error("not hexadecimal text of whole bytes")]
    NotHexadecimal,
}

/// Reads a recipe from hexadecimal text.
pub fn read_text(heap: Global, text: &str) -> Result<Result<Recipe, TextError>, AllocError>
    ensures { IfOk result (Tells text.now) }
{
    match hex::parse(heap, text)? {
        None => Ok(Err(TextError::NotHexadecimal)),
        Some(bytes) => Ok(Recipe::read(bytes.as_slice()).map_err(TextError::Refused)),
    }
}
