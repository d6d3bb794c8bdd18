// The calls on packed pages, each with the pile of its recipe.
ghost use Rattle.std.specs.Prelude.{◌≡◌, ◌<◌, ◌^◌, IfErr, IfOk};
ghost use Rattle.memory_laws.specs.Calls.{recording};
ghost use Rattle.player.specs.Pages.{Called, Left, Patrols, Puts, PutsBack, Reads, Writes, page_code};

use crate::layout::Layout;
use media::packed::Packed;
use memories::memory::Memory;
use words::fault::Fault;

/// Writes a payload to a page.
pub(crate) fn write(
    recipe: &[u8],
    pages: usize,
    bytes: &mut [u8],
    page: usize,
    payload: &[u8],
) -> Result<usize, Fault>
    ensures called { Called recipe.now pages bytes.old bytes.new page result (λ t. Writes t pages bytes.old bytes.new page payload.now result) }
    ensures bytes { Left recipe.now bytes.old bytes.new result (λ t. Puts t pages bytes.old bytes.new page (recording (page_code t) payload.now)) }
    ensures small { IfOk result (λ n. n < 2 ^ 31) }
{
    let layout = Layout::read(recipe)?;
    let mut medium = Packed {
        bytes,
        pages,
        breadth: layout.cells,
    };
    let mut memory = Memory {
        medium: &mut medium,
        code: layout.code,
    };
    memory.write(page, payload)
}

/// Reads a page into a payload.
pub(crate) fn read(
    recipe: &[u8],
    pages: usize,
    bytes: &mut [u8],
    page: usize,
    payload: &mut [u8],
) -> Result<usize, Fault>
    ensures called { Called recipe.now pages bytes.old bytes.new page result (λ t. Reads t pages bytes.old bytes.new page payload.old payload.new result) }
    ensures bytes { bytes.new ≡ bytes.old }
    ensures payload { IfErr result (λ _. payload.new ≡ payload.old) }
    ensures small { IfOk result (λ n. n < 2 ^ 31) }
{
    let layout = Layout::read(recipe)?;
    let mut medium = Packed {
        bytes,
        pages,
        breadth: layout.cells,
    };
    let mut memory = Memory {
        medium: &mut medium,
        code: layout.code,
    };
    memory.read(page, payload)
}

/// Puts back the codeword that a page is corrected to.
pub(crate) fn patrol(
    recipe: &[u8],
    pages: usize,
    bytes: &mut [u8],
    page: usize,
) -> Result<usize, Fault>
    ensures called { Called recipe.now pages bytes.old bytes.new page result (λ t. Patrols t pages bytes.old bytes.new page result) }
    ensures bytes { Left recipe.now bytes.old bytes.new result (λ t. PutsBack t pages bytes.old bytes.new page) }
    ensures small { IfOk result (λ n. n < 2 ^ 31) }
{
    let layout = Layout::read(recipe)?;
    let mut medium = Packed {
        bytes,
        pages,
        breadth: layout.cells,
    };
    let mut memory = Memory {
        medium: &mut medium,
        code: layout.code,
    };
    memory.patrol(page)
}
