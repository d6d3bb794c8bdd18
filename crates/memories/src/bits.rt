// A page's bytes as the bits of a message, most significant bit first.
ghost use Rattle.std.specs.Prelude.{◌≡◌, ℕ, ◌*◌, ◌<◌, ◌≤◌, length, count_by, position, MatchResult, nat_eq};
ghost use Rattle.std.specs.List.{AllByRecursion};
ghost use Rattle.words.specs.declared.fault.Kind.TheVariants.{SpareBitSet};
ghost use Rattle.words.specs.declared.fault.Layer.TheVariants.{Memory as the_memory};
ghost use Rattle.words.specs.Faults.{fault};
ghost use Rattle.memory_laws.specs.Payload.{bytes_of, carrying, FirstSpare, SpareClear};

use words::bits::{spell, write_bits};
use words::fault::{Fault, Kind, Layer};

/// Writes the message that carries a payload; its spare bits are 0.
pub(crate) fn spread(payload: &[u8], message: &mut [u8])
    requires { 8 * length payload.now ≤ length message.old }
    ensures { message.new ≡ carrying (length message.old) payload.now }
{
    message.fill(0);
    // Eight places at a time: of what a zip with `chunks_exact_mut` writes nothing is proved.
    for (i, byte) in payload.iter().enumerate() {
        write_bits(u16::from(*byte), &mut message[8 * i..8 * i + 8]);
    }
}

/// How many marks are set.
// A sum, which goes over sixteen marks at a time; the count of a filter goes mark by mark.
pub(crate) fn count_marks(marks: &[u8]) -> usize
    ensures { result ≡ count_by (λ m. nat_eq m 1) marks.now }
{
    marks.iter().map(|mark| usize::from(*mark == 1)).sum()
}

/// Fills a payload from the bits of a message.
pub(crate) fn gather(message: &[u8], payload: &mut [u8])
    requires { (8 * length payload.old ≤ length message.now) × (AllByRecursion (λ b. b < 2) message.now) }
    ensures { payload.new ≡ bytes_of (length payload.old) message.now }
{
    // Nor is anything proved of what a zip of `iter_mut` writes.
    for (i, byte) in payload.iter_mut().enumerate() {
        *byte = spell(&message[8 * i..8 * i + 8]) as u8;
    }
}

fn first_one(bits: &[u8]) -> Option<usize>
    ensures { result ≡ position (λ b. nat_eq b 1) bits.now }
{
    bits.iter().position(|bit| *bit == 1)
}

/// Refuses a message with a spare bit that is 1, at the first such bit.
pub(crate) fn check_spare(message: &[u8]) -> Result<(), Fault>
    requires { AllByRecursion (λ b. b < 2) message.now }
    ensures { MatchResult result (λ _. SpareClear (length message.now) message.now) (λ f. (bit : ℕ) × (f ≡ fault SpareBitSet the_memory bit) × FirstSpare (length message.now) message.now bit) }
{
    let used = 8 * (message.len() / 8);
    match first_one(&message[used..]) {
        Some(spare) => Err(Fault::new(Kind::SpareBitSet, Layer::Memory, used + spare)),
        None => Ok(()),
    }
}
