// The room that a list of calls is lent.
ghost use Rattle.std.specs.Prelude.{◌≡◌};
ghost use Rattle.words.specs.Buffers.{checked};
ghost use Rattle.lives.specs.Promises.{room_refusal};

use words::fault::{Fault, Kind, Layer};

/// Refuses a place for answers that has not one for each call, and then payloads that are not so many bytes for each.
pub(crate) fn check_rooms(
    calls: usize,
    bytes: usize,
    answers: usize,
    payloads: usize,
) -> Result<(), Fault>
    ensures { result ≡ checked (room_refusal calls bytes answers payloads) }
{
    if answers != calls {
        return Err(Fault::new(Kind::WrongLength, Layer::Memory, answers));
    }
    if bytes.checked_mul(calls) != Some(payloads) {
        return Err(Fault::new(Kind::WrongLength, Layer::Memory, payloads));
    }
    Ok(())
}
