// What the benchmark in bench/pages calls from C: the pile of a recipe, made anew at each call.
#![tactic(auto)]

use codes::code::Code;
use nests::deep::{Errand, through_twelve};
use recipe_piles::making::pile_of;
use recipe_piles::parts::RecipePile;
use recipes::recipe::Recipe;
use words::fault::Fault;

fn made(recipe: &[u8]) -> Result<RecipePile, Fault> {
    pile_of(&Recipe::read(recipe)?)
}

fn encode(recipe: &[u8], message: &[u8], word: &mut [u8]) -> Result<(), Fault> {
    made(recipe)?.encode(message, word)
}

fn correct(recipe: &[u8], word: &mut [u8], marks: &[u8]) -> Result<usize, Fault> {
    made(recipe)?.correct(word, marks)
}

// C has no Option and no Result: a refusal is 0 or a number that no answer is.

/// The cells of a page, or 0 for a refusal.
#[unsafe(no_mangle)]
pub extern "C" fn page_cells(recipe: &[u8]) -> usize {
    Recipe::read(recipe).map_or(0, |recipe| recipe.cells())
}

/// The message bits of a page, or 0 for a refusal.
#[unsafe(no_mangle)]
pub extern "C" fn page_bits(recipe: &[u8]) -> usize {
    Recipe::read(recipe).map_or(0, |recipe| recipe.message_bits())
}

/// The reach, or 0 for a refusal.
#[unsafe(no_mangle)]
pub extern "C" fn page_reach(recipe: &[u8]) -> usize {
    Recipe::read(recipe).map_or(0, |recipe| recipe.reach())
}

#[unsafe(no_mangle)]
pub extern "C" fn page_encode(recipe: &[u8], message: &[u8], word: &mut [u8]) -> bool {
    encode(recipe, message, word).is_ok()
}

/// The harm, or 10,000 for a refusal: no page of 4,096 cells is corrected with so much harm.
#[unsafe(no_mangle)]
pub extern "C" fn page_correct(recipe: &[u8], word: &mut [u8], marks: &[u8]) -> usize {
    correct(recipe, word, marks).unwrap_or(10000)
}

/// The same of a pile twelve levels deep.
#[unsafe(no_mangle)]
pub extern "C" fn nest_encode(message: &[u8], word: &mut [u8]) -> bool {
    through_twelve(Errand::Encode { message, word }).is_ok()
}

#[unsafe(no_mangle)]
pub extern "C" fn nest_correct(word: &mut [u8], marks: &[u8]) -> usize {
    through_twelve(Errand::Correct { word, marks }).unwrap_or(10000)
}
