// The polynomial fields.
ghost use Rattle.std.specs.Prelude.{◌≡◌, ℕ, ◌+◌, ◌*◌, ◌^◌, ◌<◌, ◌≤◌, IfOk, None, slice_index};
ghost use Rattle.field_laws.specs.Polynomials.{polynomial, modulus, times, Reduced};
ghost use Rattle.fields.specs.Answers.{Makes, never_refused, of_two};
ghost use Rattle.field_laws.proofs.PolynomialLaws.{polynomial_laws};
ghost use Rattle.field_laws.proofs.Tables.{logs, antilogs};

use crate::field::Field;
use crate::refusals::{element, elements, no_field};
use crate::tables::{ANTILOGS, LOGS};
use words::fault::Fault;

/// The polynomials that the fields of width 1 to 8 reduce by.
const MODULI: [u16; 8] = [0x3, 0x7, 0xB, 0x13, 0x25, 0x43, 0x89, 0x11D];

/// The field whose elements have the bits of their number as coefficients.
#[derive(Clone, Copy)]
pub struct Polynomial {
    width: u8,
    ghost range: { (1 ≤ width) × (width ≤ 8) },
}

impl Polynomial {
    /// The field of 2^m elements; 13 unless m is from 1 to 8.
    pub fn new(m: u8) -> Result<Polynomial, Fault>
        ensures { Makes ((1 ≤ m) × (m ≤ 8)) (λ (p : Polynomial). p.width ≡ m) result }
    {
        if !(1..=8).contains(&m) {
            return Err(no_field());
        }
        Ok(Polynomial { width: m })
    }

    /// The polynomial that products are reduced by, its coefficients as bits.
    pub fn modulus(&self) -> u16
        ensures { result ≡ modulus self.now.width }
    {
        MODULI[self.width as usize - 1]
    }

    /// How many elements there are.
    fn size(&self) -> usize
        ensures { result ≡ 2 ^ self.now.width }
    {
        1 << self.width
    }

    // That operands are elements stands in each contract: they are numbers handed in, others at each call, and no value holds them.
    /// How often 1 is doubled to get `a`.
    fn log(&self, a: u8) -> usize
        requires { a < 2 ^ self.now.width }
        ensures { result ≡ slice_index logs (2 ^ self.now.width + a) }
    {
        LOGS[(1 << self.width) + a as usize] as usize
    }

    /// 1 doubled `i` times.
    fn antilog(&self, i: usize) -> u8
        requires { i < 2 * 2 ^ self.now.width }
        ensures { result ≡ slice_index antilogs (2 * 2 ^ self.now.width + i) }
    {
        ANTILOGS[(2 << self.width) + i]
    }

    /// The product of two elements: the logs add up.
    fn multiply(&self, a: u8, b: u8) -> u8
        requires { (a < 2 ^ self.now.width) × (b < 2 ^ self.now.width) }
        ensures { result ≡ times self.now.width self.now.width a b }
    {
        if a == 0 || b == 0 {
            return 0;
        }
        self.antilog(self.log(a) + self.log(b))
    }

    /// The inverse of an element: the two logs make up one whole round.
    fn invert(&self, a: u8) -> Option<u8>
        requires { a < 2 ^ self.now.width }
        ensures { result ≡ (polynomial self.now.width).reciprocal a }
    {
        if a == 0 {
            return None;
        }
        let round = self.size() - 1;
        Some(self.antilog(round - self.log(a)))
    }
}

impl Field for Polynomial {
    ghost model = { λ p. polynomial p.width };

    // its width is one of the eight, by its type
    ghost refusal = { λ _. None };

    ghost lawful = { λ f _. polynomial_laws f.width f.range.0 f.range.1 };

    ghost one_fault = { λ _ e due. never_refused e due };

    fn check(&self) -> Result<(), Fault> {
        Ok(())
    }

    fn width(&self) -> u8 {
        self.width
    }

    fn sum(&self, a: u8, b: u8) -> Result<u8, Fault> {
        elements(self.size(), a, b)?;
        Ok(a ^ b)
    }

    /// The product of the two as polynomials, less the multiple of the modulus that leaves m coefficients. There is one such number.
    fn product(&self, a: u8, b: u8) -> Result<u8, Fault>
        ensures field { result ≡ of_two (2 ^ self.now.width) a b ((polynomial self.now.width).product a b) }
        ensures reduced { IfOk result (Reduced self.now.width a b) }
        ensures single { (p q : ℕ) → Reduced self.now.width a b p → Reduced self.now.width a b q → q ≡ p }
    {
        elements(self.size(), a, b)?;
        Ok(self.multiply(a, b))
    }

    fn inverse(&self, a: u8) -> Result<Option<u8>, Fault> {
        element(self.size(), a)?;
        Ok(self.invert(a))
    }
}
