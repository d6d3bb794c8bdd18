// Fields by their rule alone: products of polynomials over two elements, reduced afterwards.
use by_elimination::arithmetic::Rule;

/// The field of a Reed-Solomon code.
#[derive(Clone, Copy)]
pub(crate) enum Field {
    /// The polynomial field of a width.
    Polynomial(usize),
    /// The field over the polynomial field of half a width, by y·y = y + c.
    Extension { half: usize, c: u32 },
}

/// The polynomial that products of a width are reduced by.
fn modulus(width: usize) -> u32 {
    match width {
        1 => 0x3,
        2 => 0x7,
        3 => 0xB,
        4 => 0x13,
        5 => 0x25,
        6 => 0x43,
        7 => 0x89,
        _ => 0x11D,
    }
}

/// The product of two polynomials of at most eight coefficients, without carries.
fn carry_less(a: u32, b: u32) -> u32 {
    let mut all = 0;
    for bit in 0..8u32 {
        if b >> bit & 1 == 1 {
            all ^= a << bit;
        }
    }
    all
}

/// What is left of a product of two elements of a width, the highest coefficient taken away first.
fn reduce(width: usize, product: u32) -> u32 {
    let mut rest = product;
    for shift in (0..8).rev() {
        if rest >> (width.min(8) + shift) & 1 == 1 {
            rest ^= modulus(width) << shift;
        }
    }
    rest
}

fn polynomial_product(width: usize, a: u32, b: u32) -> u32 {
    reduce(width, carry_less(a, b))
}

/// (a + b·y)·(d + e·y) = (a·d + c·b·e) + (a·e + b·d + b·e)·y
fn extension_product(half: usize, c: u32, x: u32, y: u32) -> u32 {
    let half = half.min(4);
    let size = 1 << half;
    let (a, b) = (x % size, x / size);
    let (d, e) = (y % size, y / size);
    let squared = polynomial_product(half, b, e);
    let low = polynomial_product(half, a, d) ^ polynomial_product(half, c, squared);
    let high = polynomial_product(half, a, e) ^ polynomial_product(half, b, d) ^ squared;
    low | high << half
}

impl Field {
    /// The extension that recipes use at an even width.
    pub(crate) fn extension(width: usize) -> Field {
        let c = match width {
            2 | 6 => 1,
            4 => 2,
            _ => 8,
        };
        Field::Extension { half: width / 2, c }
    }

    /// The same field, for the decoder by elimination.
    pub(crate) fn rule(self) -> Rule {
        match self {
            Field::Polynomial(width) => Rule::polynomial(width.min(8) as u8),
            Field::Extension { half, .. } => Rule::extension(half.min(4) as u8 * 2),
        }
    }

    pub(crate) fn times(self, a: u8, b: u8) -> u8 {
        let (a, b) = (u32::from(a), u32::from(b));
        let product = match self {
            Field::Polynomial(width) => polynomial_product(width, a, b),
            Field::Extension { half, c } => extension_product(half, c, a, b),
        };
        (product & 0xff) as u8
    }

    /// The element whose product with another is one, found by trying all; of zero, zero.
    pub(crate) fn inverse(self, a: u8) -> u8 {
        (0..=255).find(|b| self.times(a, *b) == 1).unwrap_or(0)
    }
}

#[cfg(test)]
mod tests {
    use super::*;

    // (x)·(x² + 1) = x³ + x = 1 by x³ = x + 1; and x·(x⁷ + x³ + x² + x) = x⁸ + x⁴ + x³ + x² = 1 by 0x11D.
    #[test]
    fn polynomials_are_reduced(rt: HostRuntime) {
        assert_eq!(rt; Field::Polynomial(3).times(2, 5), 1);
        assert_eq!(rt; Field::Polynomial(8).times(2, 0x8E), 1);
        assert_eq!(rt; Field::Polynomial(8).inverse(2), 0x8E);
        assert_eq!(rt; Field::Polynomial(1).times(1, 1), 1);
    }

    // y·y = y + 8 over four bits, so 16·16 = 16 + 8.
    #[test]
    fn an_extension_squares_y(rt: HostRuntime) {
        let field = Field::extension(8);
        assert_eq!(rt; field.times(16, 16), 24);
        assert_eq!(rt; field.times(field.inverse(77), 77), 1);
    }
}
