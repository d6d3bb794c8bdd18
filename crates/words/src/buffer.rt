// The checks that every call makes of its buffers.
ghost use Rattle.std.specs.Prelude.{◌≡◌, map, nat_le, position};
ghost use Rattle.words.specs.Buffers.{checked, given, wrong_length, too_large, first_of, refusal};

use crate::fault::{Fault, Kind, Layer};

/// A buffer that a call is handed, how long it must be, and what each of its values must lie below.
/// Every byte lies below 256, so that bound asks nothing of the content.
#[derive(Clone, Copy)]
pub struct Buffer<'a> {
    pub content: &'a [u8],
    pub wanted: usize,
    pub below: usize,
}

impl<'a> Buffer<'a> {
    /// A buffer whose content must have a length, and values below a bound.
    pub fn new(content: &'a [u8], wanted: usize, below: usize) -> Self
        ensures { given result ≡ record { content = content.entry.now; wanted = wanted; below = below } }
    {
        Buffer {
            content,
            wanted,
            below,
        }
    }
}

impl Buffer<'_> {
    fn check_length(&self, layer: Layer) -> Result<(), Fault>
        ensures { result ≡ checked (wrong_length layer (given self.now)) }
    {
        let len = self.content.len();
        if len == self.wanted {
            Ok(())
        } else {
            Err(Fault::new(Kind::WrongLength, layer, len))
        }
    }

    fn first_large(&self) -> Option<usize>
        ensures { result ≡ position (λ x. nat_le self.now.below x) self.now.content.now }
    {
        self.content
            .iter()
            .position(|value| usize::from(*value) >= self.below)
    }

    fn check_values(&self, layer: Layer) -> Result<(), Fault>
        ensures { result ≡ checked (too_large layer (given self.now)) }
    {
        match self.first_large() {
            None => Ok(()),
            Some(i) => Err(Fault::new(Kind::TooLarge, layer, i)),
        }
    }
}

fn check_lengths(layer: Layer, buffers: &[Buffer<'_>]) -> Result<(), Fault>
    ensures { result ≡ checked (first_of (wrong_length layer) (map given buffers.now)) }
{
    for buffer in buffers {
        buffer.check_length(layer)?;
    }
    Ok(())
}

fn check_contents(layer: Layer, buffers: &[Buffer<'_>]) -> Result<(), Fault>
    ensures { result ≡ checked (first_of (too_large layer) (map given buffers.now)) }
{
    for buffer in buffers {
        buffer.check_values(layer)?;
    }
    Ok(())
}

/// Refuses the first buffer of a wrong length and, once all lengths are right, the first value that is too large.
pub fn check_buffers(layer: Layer, buffers: &[Buffer<'_>]) -> Result<(), Fault>
    ensures { result ≡ checked (refusal layer (map given buffers.now)) }
{
    check_lengths(layer, buffers)?;
    check_contents(layer, buffers)
}
