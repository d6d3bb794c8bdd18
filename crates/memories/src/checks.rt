// The checks of a page and a payload.
ghost use Rattle.std.specs.Prelude.{◌≡◌, [], ◌∷◌, if◌then◌else◌, Some, None, nat_lt};
ghost use Rattle.words.specs.declared.fault.Kind.TheVariants.{PageOutOfRange};
ghost use Rattle.words.specs.declared.fault.Layer.TheVariants.{Medium as the_medium, Memory as the_memory};
ghost use Rattle.words.specs.Buffers.{checked, either, refusal, written_to};
ghost use Rattle.words.specs.Faults.{fault};

use media::checks::check_page;
use words::buffer::{Buffer, check_buffers};
use words::fault::{Fault, Layer};

fn check_payload(payload: &[u8], bytes: usize) -> Result<(), Fault>
    ensures { result ≡ checked (refusal the_memory (written_to bytes payload.now ∷ [])) }
{
    let buffers = [Buffer::new(payload, bytes, 256)];
    check_buffers(Layer::Memory, &buffers)
}

pub(crate) fn check_call(
    page: usize,
    pages: usize,
    payload: &[u8],
    bytes: usize,
) -> Result<(), Fault>
    ensures { result ≡ checked (either (if nat_lt page pages then None else Some (fault PageOutOfRange the_medium page)) (refusal the_memory (written_to bytes payload.now ∷ []))) }
{
    check_page(page, pages)?;
    check_payload(payload, bytes)
}
