// The extension of a small field by a root of y·y = y + c.
ghost use Rattle.std.specs.Prelude.{◌≡◌};
ghost use Rattle.words.specs.Soundness.{Sound};
ghost use Rattle.field_laws.specs.Extensions.{Extends, extension};
ghost use Rattle.fields.specs.Answers.{Makes, Multiplies, Sums};
ghost use Rattle.fields.specs.Extending.{fault_above, refusal_above, SoundExtension, extension_lawful, MultipliesBelow, MultipliesRoot, SquaresRoot, SumsBelow, SumsParts};

use crate::below::Below;
use crate::field::Field;
use crate::refusals::{element, elements};
use words::fault::Fault;

/// The field whose number a + q·b means a + b·y over a field of q elements, q at most 16.
#[derive(Clone, Copy)]
pub struct Extension<F> {
    base: F,
    c: u8,
}

impl<F: Field + Drop> Extension<F> {
    /// The extension by y·y = y + c. It is lawful exactly if `base` is sound and has at most 16 elements, c is one of them, and no
    /// element e has e·e + e = c; else 13.
    pub fn new(base: F, c: u8) -> Result<Extension<F>, Fault>
        ensures { Makes (Sound F.Field.refusal base × Extends (F.Field.model base) c) (λ (x : Extension F). (x.base ≡ base) × (x.c ≡ c)) result }
    {
        let field = Extension { base, c };
        field.check()?;
        Ok(field)
    }
}

// The sum and the product as those of every field. What they are in the words of the field below follows from that, in the trait's calls.
impl<F: Field> Extension<F> {
    fn add(&self, a: u8, b: u8) -> Result<u8, Fault>
        ensures { Sums (SoundExtension (F.Field.refusal self.now.base) (F.Field.model self.now.base) self.now.c)
            (extension (F.Field.model self.now.base) self.now.c) a b result }
    {
        let below = Below::new(&self.base, self.c)?;
        elements(below.size_above(), a, b)?;
        below.sum(a, b)
    }

    fn multiply(&self, a: u8, b: u8) -> Result<u8, Fault>
        ensures { Multiplies (SoundExtension (F.Field.refusal self.now.base) (F.Field.model self.now.base) self.now.c)
            (extension (F.Field.model self.now.base) self.now.c) a b result }
    {
        let below = Below::new(&self.base, self.c)?;
        elements(below.size_above(), a, b)?;
        below.product(a, b)
    }
}

impl<F: Field> Field for Extension<F> {
    ghost model = { λ x. extension (F.Field.model x.base) x.c };

    ghost refusal = { λ x. refusal_above (F.Field.refusal x.base) (F.Field.model x.base) x.c };

    ghost lawful = { λ x s. extension_lawful (F.Field.refusal x.base) (F.Field.model x.base) (F.Field.lawful x.base) x.c s };

    ghost one_fault = { λ x e due. fault_above (F.Field.refusal x.base) (F.Field.model x.base) x.c (F.Field.one_fault x.base) e due };

    fn check(&self) -> Result<(), Fault> {
        self.base.check()?;
        let below = Below::new(&self.base, self.c)?;
        below.check()
    }

    fn width(&self) -> u8 {
        self.base.width().saturating_mul(2)
    }

    /// The sum. Numbers below q add as in the field below, and a + q·b is the sum of a and q·b.
    fn sum(&self, a: u8, b: u8) -> Result<u8, Fault>
        ensures field { Sums (SoundExtension (F.Field.refusal self.now.base) (F.Field.model self.now.base) self.now.c)
            (extension (F.Field.model self.now.base) self.now.c) a b result }
        ensures below { SoundExtension (F.Field.refusal self.now.base) (F.Field.model self.now.base) self.now.c →
            SumsBelow (F.Field.model self.now.base) a b result }
        ensures parts { SoundExtension (F.Field.refusal self.now.base) (F.Field.model self.now.base) self.now.c →
            SumsParts (F.Field.model self.now.base) a b result }
    {
        self.add(a, b)
    }

    /// The product. Numbers below q multiply as in the field below. The number q is y: y·y is y + c, and b·y is q·b.
    fn product(&self, a: u8, b: u8) -> Result<u8, Fault>
        ensures field { Multiplies (SoundExtension (F.Field.refusal self.now.base) (F.Field.model self.now.base) self.now.c)
            (extension (F.Field.model self.now.base) self.now.c) a b result }
        ensures below { SoundExtension (F.Field.refusal self.now.base) (F.Field.model self.now.base) self.now.c →
            MultipliesBelow (F.Field.model self.now.base) a b result }
        ensures square { SoundExtension (F.Field.refusal self.now.base) (F.Field.model self.now.base) self.now.c →
            SquaresRoot (F.Field.model self.now.base) self.now.c a b result }
        ensures root { SoundExtension (F.Field.refusal self.now.base) (F.Field.model self.now.base) self.now.c →
            MultipliesRoot (F.Field.model self.now.base) a b result }
    {
        self.multiply(a, b)
    }

    fn inverse(&self, a: u8) -> Result<Option<u8>, Fault> {
        let below = Below::new(&self.base, self.c)?;
        element(below.size_above(), a)?;
        below.inverse(a)
    }
}
