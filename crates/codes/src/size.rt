// The numbers of the simple kinds of code.
ghost use Rattle.std.specs.Prelude.{◌≡◌, ◌^◌, ◌≤◌};
ghost use Rattle.codes.specs.Making.{InRange, Made};

use crate::checks::Parameters;
use words::fault::{Fault, Kind, Layer};
use words::limits::MOST_CELLS;

/// The width of a code's symbols, from 1 to 8 bits, and the length of its words, from 1 to 4,096 places.
#[derive(Clone, Copy)]
pub(crate) struct Size {
    pub(crate) width: usize,
    pub(crate) len: usize,
    ghost some_width: { 1 ≤ width },
    ghost narrow: { width ≤ 8 },
    ghost some_places: { 1 ≤ len },
    ghost short: { len ≤ 4096 },
}

impl Size {
    /// Refuses a width or a length outside the range with 14.
    pub(crate) fn new(width: usize, len: usize) -> Result<Self, Fault>
        ensures { Made (InRange width len) (λ s. (s.width ≡ width) × (s.len ≡ len)) result }
    {
        if (1..=8).contains(&width) && (1..=MOST_CELLS).contains(&len) {
            Ok(Size { width, len })
        } else {
            Err(Fault::new(Kind::OutsideKind, Layer::Code, 0))
        }
    }

    /// What the calls of a code of this size and a message length check their buffers against.
    pub(crate) fn parameters(self, message_len: usize) -> Parameters
        ensures symbols { result.symbols ≡ 2 ^ self.width }
        ensures message_len { result.message_len ≡ message_len }
        ensures len { result.len ≡ self.len }
    {
        Parameters {
            symbols: 1 << self.width,
            message_len,
            len: self.len,
        }
    }
}
