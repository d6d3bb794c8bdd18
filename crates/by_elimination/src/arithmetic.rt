// Arithmetic that shares nothing with the library's: products worked out bit by bit, for the polynomial fields and their extensions.

/// A field that is to be compared: the polynomial field of a width, or its extension by y·y = y + c.
#[derive(Clone, Copy)]
pub struct Rule {
    modulus: u16,
    size: u16,
    c: Option<u16>,
}

/// All products of a field, a row for each first operand.
#[derive(Drop)]
pub struct Products {
    rows: [[u8; 256]; 256],
}

impl Rule {
    /// The polynomial field of a width from 1 to 8.
    pub fn polynomial(width: u8) -> Rule {
        let modulus = match width {
            1 => 0x3,
            2 => 0x7,
            3 => 0xB,
            4 => 0x13,
            5 => 0x25,
            6 => 0x43,
            7 => 0x89,
            _ => 0x11D,
        };
        Rule {
            modulus,
            size: 1 << width.min(8),
            c: None,
        }
    }

    /// The extension of an even width, over the polynomial field of half the width.
    pub fn extension(width: u8) -> Rule {
        let c = match width {
            2 | 6 => 1,
            4 => 2,
            _ => 8,
        };
        Rule {
            c: Some(c),
            ..Rule::polynomial(width / 2)
        }
    }

    /// How many elements there are.
    pub fn elements(self) -> usize {
        let size = usize::from(self.size);
        match self.c {
            Some(_) => size * size,
            None => size,
        }
    }

    /// The product of two polynomials over two elements, reduced.
    fn reduced(self, a: u16, b: u16) -> u16 {
        let mut all = 0;
        let mut multiple = a;
        for bit in 0..8u32 {
            if b >> bit & 1 == 1 {
                all ^= multiple;
            }
            multiple = multiple.wrapping_mul(2);
            if multiple & self.size != 0 {
                multiple ^= self.modulus;
            }
        }
        all
    }

    /// The product of two elements a + b·y, where y·y = y + c.
    fn extended(self, c: u16, a: u16, b: u16) -> u16 {
        let q = self.size.max(1);
        let squared = self.reduced(a / q, b / q);
        let low = self.reduced(a % q, b % q) ^ self.reduced(c, squared);
        let high = self.reduced(a % q, b / q) ^ self.reduced(a / q, b % q) ^ squared;
        low.wrapping_add(q.wrapping_mul(high))
    }

    fn product(self, a: u8, b: u8) -> u8 {
        let value = match self.c {
            Some(c) => self.extended(c, a.into(), b.into()),
            None => self.reduced(a.into(), b.into()),
        };
        (value % 256) as u8
    }

    fn row(self, a: u8) -> [u8; 256] {
        let mut row = [0; 256];
        for (b, product) in (0..=255).zip(row.iter_mut()) {
            *product = self.product(a, b);
        }
        row
    }
}

impl Products {
    pub fn new(rule: Rule) -> Products {
        let mut rows = [[0; 256]; 256];
        for (a, row) in (0..=255).zip(rows.iter_mut()) {
            *row = rule.row(a);
        }
        Products { rows }
    }

    pub fn times(&self, a: u8, b: u8) -> u8 {
        self.rows[usize::from(a)][usize::from(b)]
    }

    /// The element that gives one, by trying all, if there is one.
    pub fn inverse(&self, a: u8) -> Option<u8> {
        (0..=255).find(|b| self.times(a, *b) == 1)
    }
}
