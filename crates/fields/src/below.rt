// Arithmetic in the field below an extension. Elements of an extension come apart into two elements of that field.
ghost use Rattle.std.specs.Prelude.{◌≡◌, ℕ, ◌+◌, ◌*◌, ◌/◌, ◌%◌, ◌^◌, ◌<◌, ◌≤◌, IfOk, Ok, Err};
ghost use Rattle.words.specs.Soundness.{Sound};
ghost use Rattle.field_laws.specs.Extensions.{Extends, Rootless};
ghost use Rattle.fields.specs.Answers.{Checks};
ghost use Rattle.fields.specs.Below.{Narrow, Trace, TwoProducts, Norm, ProductParts, ScaledParts, Scaled, SumOf, ProductOf, InverseOf};

use crate::field::Field;
use crate::refusals::no_field;
use words::fault::Fault;

/// low + high·y
#[derive(Clone, Copy)]
pub(crate) struct Parts {
    pub low: u8,
    pub high: u8,
}

/// The field below an extension by y·y = y + c, its width at hand.
#[derive(Drop)]
pub(crate) struct Below<'a, F> {
    field: &'a F,
    c: u8,
    width: u8,
    ghost narrow: { width ≤ 4 },
}

impl<'a, F: Field> Below<'a, F> {
    /// Refuses with 13 if the width is above 4.
    pub(crate) fn new(field: &'a F, c: u8) -> Result<Below<'a, F>, Fault>
        ensures narrow { Narrow (Sound F.refusal field.now) (F.model field.now) (λ (b : Below F). b.width) result }
        ensures parts { IfOk result (λ (b : Below F). (b.field.now ≡ field.now) × (b.c ≡ c)) }
    {
        let width = field.width();
        if width > 4 {
            return Err(no_field());
        }
        Ok(Below { field, c, width })
    }
}

impl<F: Field> Below<'_, F> {
    /// How many elements the field below has.
    pub(crate) fn size(&self) -> u8
        ensures { result ≡ 2 ^ self.now.width }
    {
        1 << self.width
    }

    /// How many elements the extension has.
    pub(crate) fn size_above(&self) -> usize
        ensures { result ≡ 2 ^ (2 * self.now.width) }
    {
        1 << (2 * self.width)
    }

    /// The two parts of an element.
    fn split(&self, x: u8) -> Parts
        ensures value { (result.low ≡ x % 2 ^ self.now.width) × (result.high ≡ x / 2 ^ self.now.width) }
        ensures bounds { (result.low < 2 ^ self.now.width) × (x < 2 ^ (2 * self.now.width) → result.high < 2 ^ self.now.width) }
    {
        let q = self.size();
        Parts {
            low: x % q,
            high: x / q,
        }
    }

    /// The element of these parts; 13 where one is no element below.
    fn join(&self, x: Parts) -> Result<u8, Fault>
        ensures { x.low < 2 ^ self.now.width → x.high < 2 ^ self.now.width → result ≡ Ok (x.low + 2 ^ self.now.width * x.high) }
    {
        let q = self.size();
        if x.low >= q || x.high >= q {
            return Err(no_field());
        }
        Ok(x.low + q * x.high)
    }

    /// e·e + e
    fn trace(&self, e: u8) -> Result<u8, Fault>
        ensures { Trace (Sound F.refusal self.now.field.now) (F.model self.now.field.now) e result }
    {
        let square = self.field.product(e, e)?;
        self.field.sum(square, e)
    }

    /// Ok if no element e has e·e + e = c; else 13.
    fn no_root(&self) -> Result<(), Fault>
        requires { Sound F.refusal self.now.field.now × (self.now.width ≡ (F.model self.now.field.now).width) }
        ensures { Checks (Rootless (F.model self.now.field.now) self.now.c) result }
    {
        for e in 0..self.size() {
            if self.trace(e)? == self.c {
                return Err(no_field());
            }
        }
        Ok(())
    }

    /// Ok if c is an element below, and no element e has e·e + e = c; else 13.
    pub(crate) fn check(&self) -> Result<(), Fault>
        requires { Sound F.refusal self.now.field.now × (self.now.width ≡ (F.model self.now.field.now).width) }
        ensures { Checks (Extends (F.model self.now.field.now) self.now.c) result }
    {
        if self.c >= self.size() {
            return Err(no_field());
        }
        self.no_root()
    }

    /// a·u + b·v
    #[inline(always)]
    fn two_products(&self, a: u8, u: u8, b: u8, v: u8) -> Result<u8, Fault>
        ensures { TwoProducts (Sound F.refusal self.now.field.now) (F.model self.now.field.now) a u b v result }
    {
        let au = self.field.product(a, u)?;
        let bv = self.field.product(b, v)?;
        self.field.sum(au, bv)
    }

    /// a·(a + b) + c·b·b, for a + b·y.
    fn norm(&self, x: Parts) -> Result<u8, Fault>
        ensures { Norm (Sound F.refusal self.now.field.now) (F.model self.now.field.now) self.now.c x.low x.high result }
    {
        let sum = self.field.sum(x.low, x.high)?;
        let square = self.field.product(x.high, x.high)?;
        self.two_products(x.low, sum, self.c, square)
    }

    /// The parts of the product of `x` and `y`.
    fn product_parts(&self, x: Parts, y: Parts) -> Result<Parts, Fault>
        ensures { ProductParts (Sound F.refusal self.now.field.now) (F.model self.now.field.now) self.now.c x.low x.high y.low y.high result }
    {
        let squared = self.field.product(x.high, y.high)?;
        let low = self.two_products(x.low, y.low, self.c, squared)?;
        let cross = self.two_products(x.low, y.high, x.high, y.low)?;
        let high = self.field.sum(cross, squared)?;
        Ok(Parts { low, high })
    }

    /// The parts of i·((a + b) + b·y), for a + b·y.
    fn scaled_parts(&self, i: u8, x: Parts) -> Result<Parts, Fault>
        ensures { ScaledParts (Sound F.refusal self.now.field.now) (F.model self.now.field.now) i x.low x.high result }
    {
        let sum = self.field.sum(x.low, x.high)?;
        let low = self.field.product(i, sum)?;
        let high = self.field.product(i, x.high)?;
        Ok(Parts { low, high })
    }

    /// i·((a + b) + b·y), for a + b·y.
    fn scaled(&self, i: u8, x: Parts) -> Result<u8, Fault>
        ensures { Scaled (Sound F.refusal self.now.field.now) (F.model self.now.field.now) i self.now.width x.low x.high result }
    {
        let parts = self.scaled_parts(i, x)?;
        self.join(parts)
    }

    /// The sum of two elements of the extension.
    pub(crate) fn sum(&self, a: u8, b: u8) -> Result<u8, Fault>
        ensures { SumOf (Sound F.refusal self.now.field.now) (F.model self.now.field.now) self.now.width a b result }
    {
        let x = self.split(a);
        let y = self.split(b);
        let low = self.field.sum(x.low, y.low)?;
        let high = self.field.sum(x.high, y.high)?;
        self.join(Parts { low, high })
    }

    /// The product of two elements of the extension.
    pub(crate) fn product(&self, a: u8, b: u8) -> Result<u8, Fault>
        ensures { ProductOf (Sound F.refusal self.now.field.now) (F.model self.now.field.now) self.now.c self.now.width a b result }
    {
        let x = self.split(a);
        let y = self.split(b);
        let parts = self.product_parts(x, y)?;
        self.join(parts)
    }

    /// The inverse of an element of the extension, absent for zero.
    pub(crate) fn inverse(&self, a: u8) -> Result<Option<u8>, Fault>
        ensures { InverseOf (Sound F.refusal self.now.field.now) (F.model self.now.field.now) self.now.c self.now.width a result }
    {
        let x = self.split(a);
        let n = self.norm(x)?;
        let Some(i) = self.field.inverse(n)? else {
            return Ok(None);
        };
        let inverse = self.scaled(i, x)?;
        Ok(Some(inverse))
    }
}
