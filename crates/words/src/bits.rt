// Numbers as rows of bits, the first bit most significant.
ghost use Rattle.std.specs.Prelude.{◌≡◌, ◌/◌, ◌%◌, ◌^◌, ◌<◌, length, slice_index};
ghost use Rattle.words.specs.Bits.{bits_of, spelled};

/// The number that a row of bits spells. Only its lowest 16 bits are kept.
#[tactic(auto, using(crate::proofs::Folds::folded))]
pub fn spell(bits: &[u8]) -> u16
    ensures { result ≡ spelled bits.now % 2 ^ 16 }
{
    bits.iter().fold(0, |number: u16, bit| {
        number.wrapping_mul(2).wrapping_add(u16::from(*bit))
    })
}

// A bit of the sixteen.
fn low_bit(number: u16, weight: usize) -> u8
    requires { weight < 16 }
    ensures { result ≡ number / 2 ^ weight % 2 }
{
    (number >> weight & 1) as u8
}

/// The bit of a number that counts 2 to the power of `weight`.
pub fn bit_at(number: u16, weight: usize) -> u8
    ensures { result ≡ number / 2 ^ weight % 2 }
{
    if weight < 16 {
        low_bit(number, weight)
    } else {
        0
    }
}

/// The bit at a place of the row that the lowest `count` bits of a number make, and 0 behind it.
// In a short row no weight is past the sixteen: without that test a loop over the row writes eight bits at once.
#[tactic(auto, using(crate::proofs::Spelling::get_or_bits, crate::proofs::Spelling::bits_behind))]
pub fn bit_in(number: u16, count: usize, place: usize) -> u8
    ensures { result ≡ slice_index (bits_of count number) place }
{
    if count <= place {
        return 0;
    }
    let weight = count - 1 - place;
    if count <= 16 {
        low_bit(number, weight)
    } else {
        bit_at(number, weight)
    }
}

/// Writes the lowest bits of a number, as many as there is room for.
pub fn write_bits(number: u16, bits: &mut [u8])
    ensures { bits.new ≡ bits_of (length bits.old) number }
{
    let count = bits.len();
    for (i, bit) in bits.iter_mut().enumerate() {
        *bit = bit_in(number, count, i);
    }
}
