// What every field offers, and what its answers mean.
ghost use Rattle.std.specs.Prelude.{◌≡◌, IfErr, Option, Some};
ghost use Rattle.words.specs.declared.fault.Fault.{Fault};
ghost use Rattle.words.specs.Buffers.{checked};
ghost use Rattle.words.specs.Soundness.{Sound};
ghost use Rattle.field_laws.specs.Fields.{FieldModel, FieldLaws};
ghost use Rattle.fields.specs.Answers.{unlawful, Sums, Multiplies, Inverts};

use words::fault::Fault;

/// A field of 2^m elements, m from 1 to 8, numbered from 0: number 0 is zero, number 1 is one.
///
/// The answers are those of `model` wherever the field is sound; `check` refuses any other field.
pub trait Field {
    ghost model: { Self → FieldModel };

    // the fault by which the check refuses a field that is none; none of a sound field
    ghost refusal: { Self → Option Fault };

    /// Ok exactly if the field is sound; else 13.
    fn check(&self) -> Result<(), Fault>
        ensures refused { result ≡ checked (refusal self.now) }
        ensures number { IfErr result (λ f. f ≡ unlawful) };

    // Of a field that is not sound these four answer any value or refusal: the field below may be of any kind, and have none of its own.

    /// The width m.
    fn width(&self) -> u8
        ensures { Sound refusal self.now → result ≡ (model self.now).width };

    /// The sum; an operand that is no element gives 11 at its index.
    fn sum(&self, a: u8, b: u8) -> Result<u8, Fault>
        ensures { Sums (Sound refusal self.now) (model self.now) a b result };

    /// The product; an operand that is no element gives 11 at its index.
    fn product(&self, a: u8, b: u8) -> Result<u8, Fault>
        ensures { Multiplies (Sound refusal self.now) (model self.now) a b result };

    /// The inverse, absent for zero; an operand that is no element gives 11.
    fn inverse(&self, a: u8) -> Result<Option<u8>, Fault>
        ensures { Inverts (Sound refusal self.now) (model self.now) a result };

    ghost lawful: { (f : Self) → Sound refusal f → FieldLaws (model f) };

    // whatever the field, it is refused by 13
    ghost one_fault: { (f : Self) (e : Fault) → refusal f ≡ Some e → e ≡ unlawful };
}
