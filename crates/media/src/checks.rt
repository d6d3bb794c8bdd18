// The checks that media share: their numbers, the page and the cell.
ghost use Rattle.std.specs.Prelude.{◌≡◌, ◌&&◌, [], ◌∷◌, if◌then◌else◌, Some, None, nat_le, nat_lt};
ghost use Rattle.words.specs.declared.fault.Kind.TheVariants.{PageOutOfRange, CellOutOfRange};
ghost use Rattle.words.specs.declared.fault.Layer.TheVariants.{Medium as the_medium};
ghost use Rattle.words.specs.Buffers.{checked, refusal, values_below, written_to};
ghost use Rattle.words.specs.Faults.{fault};
ghost use Rattle.media_laws.specs.Lent.{in_range};

use words::buffer::{Buffer, check_buffers};
use words::fault::{Fault, Kind, Layer};
pub use words::limits::{MOST_CELLS, MOST_PAGES};

pub(crate) fn in_range(pages: usize, breadth: usize) -> bool
    ensures { result ≡ in_range pages breadth }
{
    (1..=MOST_PAGES).contains(&pages) && (1..=MOST_CELLS).contains(&breadth)
}

/// Refuses a page that there is not.
pub fn check_page(page: usize, pages: usize) -> Result<(), Fault>
    ensures { result ≡ checked (if nat_lt page pages then None else Some (fault PageOutOfRange the_medium page)) }
{
    if page < pages {
        Ok(())
    } else {
        Err(Fault::new(Kind::PageOutOfRange, Layer::Medium, page))
    }
}

/// Refuses a cell or a state that there is not.
pub fn check_cell(cell: usize, breadth: usize, state: u8) -> Result<(), Fault>
    ensures { result ≡ checked (if nat_lt cell breadth && nat_le state 2 then None else Some (fault CellOutOfRange the_medium cell)) }
{
    if cell < breadth && state <= 2 {
        Ok(())
    } else {
        Err(Fault::new(Kind::CellOutOfRange, Layer::Medium, cell))
    }
}

// The checks of fetch: both buffers are only written to.
pub(crate) fn check_fetch(cells: &[u8], marks: &[u8], breadth: usize) -> Result<(), Fault>
    ensures { result ≡ checked (refusal the_medium (written_to breadth cells.now ∷ written_to breadth marks.now ∷ [])) }
{
    let buffers = [
        Buffer::new(cells, breadth, 256),
        Buffer::new(marks, breadth, 256),
    ];
    check_buffers(Layer::Medium, &buffers)
}

/// The checks of put: cells of 0 and 1.
pub fn check_put(cells: &[u8], breadth: usize) -> Result<(), Fault>
    ensures { result ≡ checked (refusal the_medium (values_below 2 breadth cells.now ∷ [])) }
{
    let buffers = [Buffer::new(cells, breadth, 2)];
    check_buffers(Layer::Medium, &buffers)
}
