// What the firmware of a player calls from C: pages of a packed memory under the code of a recipe. include/pizqarod.h declares it.
#![tactic(auto)]

ghost use Rattle.std.specs.Prelude.{◌≡◌};
ghost use Rattle.memory_laws.specs.Calls.{recording};
ghost use Rattle.player.specs.Answers.{Refused, Tells};
ghost use Rattle.player.specs.Pages.{Called, Left, Patrols, Puts, PutsBack, Reads, Writes, page_code};

mod answer;
mod calls;
mod layout;

use crate::answer::tell;

/// Writes a payload to a page and answers how many of its cells are then blank, or minus the number of a refusal.
#[unsafe(no_mangle)]
pub extern "C" fn pizqarod_write(
    recipe: &[u8],
    pages: u32,
    bytes: &mut [u8],
    page: u32,
    payload: &[u8],
) -> i32
    ensures { Tells result (λ r. Called recipe.now pages bytes.old bytes.new page r (λ t. Writes t pages bytes.old bytes.new page payload.now r) × Left recipe.now bytes.old bytes.new r (λ t. Puts t pages bytes.old bytes.new page (recording (page_code t) payload.now))) }
{
    tell(calls::write(recipe, pages as usize, bytes, page as usize, payload))
}

/// Reads a page into a payload and answers its harm, or minus the number of a refusal.
#[unsafe(no_mangle)]
pub extern "C" fn pizqarod_read(
    recipe: &[u8],
    pages: u32,
    bytes: &mut [u8],
    page: u32,
    payload: &mut [u8],
) -> i32
    ensures { Tells result (λ r. Called recipe.now pages bytes.old bytes.new page r (λ t. Reads t pages bytes.old bytes.new page payload.old payload.new r) × (bytes.new ≡ bytes.old) × Refused r (payload.new ≡ payload.old)) }
{
    tell(calls::read(recipe, pages as usize, bytes, page as usize, payload))
}

/// Puts back the codeword that a page is corrected to and answers its harm, or minus the number of a refusal.
#[unsafe(no_mangle)]
pub extern "C" fn pizqarod_patrol(recipe: &[u8], pages: u32, bytes: &mut [u8], page: u32) -> i32
    ensures { Tells result (λ r. Called recipe.now pages bytes.old bytes.new page r (λ t. Patrols t pages bytes.old bytes.new page r) × Left recipe.now bytes.old bytes.new r (λ t. PutsBack t pages bytes.old bytes.new page)) }
{
    tell(calls::patrol(recipe, pages as usize, bytes, page as usize))
}
