// The refusals that the tests expect.
use words::fault::{Fault, Kind, Layer};

// A refusal of a call on a page.
pub(crate) fn refused(kind: Kind, layer: Layer, place: usize, page: usize) -> Fault {
    Fault::new(kind, layer, place).on_page(page)
}
