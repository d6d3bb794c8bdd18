// Arithmetic on elements of a sound field. There no call refuses, so each answer is there.
//
// That the field is sound and operands are elements stands in each contract, here and in the passes, the key equation and the interpolation:
// both are of what is handed in, a field that is lent and other numbers at each call, and no value holds them.
ghost use Rattle.std.specs.Prelude.{◌≡◌, ◌<◌, Some, ◌≢◌};
ghost use Rattle.words.specs.Soundness.{Sound};
ghost use Rattle.field_laws.specs.Fields.{size as field_size};

use fields::field::Field;

/// The most symbols that a word has: one for each element of the largest field.
pub(crate) const MOST_SYMBOLS: usize = 256;

pub(crate) fn add<F: Field>(field: &F, a: u8, b: u8) -> u8
    requires { (Sound F.refusal field.now) × ((a < field_size (F.model field.now)) × (b < field_size (F.model field.now))) }
    ensures { (result ≡ (F.model field.now).sum a b) × (result < field_size (F.model field.now)) }
{
    field.sum(a, b).unwrap()
}

pub(crate) fn multiply<F: Field>(field: &F, a: u8, b: u8) -> u8
    requires { (Sound F.refusal field.now) × ((a < field_size (F.model field.now)) × (b < field_size (F.model field.now))) }
    ensures { (result ≡ (F.model field.now).product a b) × (result < field_size (F.model field.now)) }
{
    field.product(a, b).unwrap()
}

/// The inverse of an element that is not zero.
pub(crate) fn invert<F: Field>(field: &F, a: u8) -> u8
    requires { (Sound F.refusal field.now) × ((a < field_size (F.model field.now)) × (a ≢ 0)) }
    ensures { ((F.model field.now).reciprocal a ≡ Some result) × (result < field_size (F.model field.now)) }
{
    field.inverse(a).unwrap().unwrap()
}
