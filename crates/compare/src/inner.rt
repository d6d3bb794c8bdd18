// Chains by their rule alone: how a row of labels becomes cells.
use std::alloc::AllocError;

/// A chain as a recipe's first byte names it.
#[derive(Clone, Copy)]
pub(crate) enum Chain {
    /// Reed-Muller with 2^r cells.
    ReedMuller(u32),
    /// Even with n cells.
    Even(u32),
}

/// Whether the product of the variables that m names, one to each bit, is 1 at cell p.
fn product_at(m: u32, p: u32) -> bool {
    m & !p == 0
}

/// How many numbers from `first` on and below `end` have so many ones.
fn count_with_ones(first: u32, end: u32, ones: u32) -> usize {
    (first..end).filter(|m| m.count_ones() == ones).count()
}

/// The bit of a label whose last bit has index 0.
fn label_bit(label: Option<&u8>, index: usize) -> bool {
    label.is_some_and(|label| index < 8 && label >> index & 1 == 1)
}

/// The products that a row of labels of a Reed-Muller chain adds up, as the bits of a number.
fn products(r: u32, labels: &[u8]) -> u32 {
    let end: u32 = 1 << r.min(4);
    let mut all = 0;
    for m in 0..end {
        let ones = m.count_ones();
        let label = labels.get(r.saturating_sub(ones) as usize);
        if label_bit(label, count_with_ones(m + 1, end, ones)) {
            all |= 1 << m.min(15);
        }
    }
    all
}

/// Cell p of a sum of products.
fn sum_at(products: u32, p: u32) -> u8 {
    let ones = (0..16).filter(|m| products >> m & 1 == 1 && product_at(*m, p));
    (ones.count() % 2) as u8
}

/// Cell p of an even chain: a bit of the second label, or what makes the sum of all cells the first.
fn even_at(n: u32, labels: &[u8], p: u32) -> u8 {
    let free = n.saturating_sub(1);
    let label = labels.get(1);
    if p < free {
        let index = free.saturating_sub(p).saturating_sub(1);
        return u8::from(label_bit(label, index as usize));
    }
    let sum = label_bit(labels.first(), 0);
    let others = label.map_or(0, |label| label.count_ones());
    u8::from(sum) ^ (others % 2) as u8
}

fn push_reed_muller(r: u32, labels: &[u8], cells: &mut Vec<u8>) -> Result<(), AllocError> {
    let products = products(r, labels);
    for p in 0..1 << r.min(4) {
        cells.push(sum_at(products, p))?;
    }
    Ok(())
}

fn push_even(n: u32, labels: &[u8], cells: &mut Vec<u8>) -> Result<(), AllocError> {
    for p in 0..n {
        cells.push(even_at(n, labels, p))?;
    }
    Ok(())
}

impl Chain {
    pub(crate) fn named(byte: u8) -> Option<Chain> {
        match byte {
            0x11..=0x14 => Some(Chain::ReedMuller(u32::from(byte - 0x10))),
            0x22..=0x29 => Some(Chain::Even(u32::from(byte - 0x20))),
            _ => None,
        }
    }

    pub(crate) fn cells(self) -> usize {
        match self {
            Chain::ReedMuller(r) => 1 << r.min(4),
            Chain::Even(n) => n as usize,
        }
    }

    pub(crate) fn stages(self) -> usize {
        match self {
            Chain::ReedMuller(r) => (r as usize).saturating_add(1),
            Chain::Even(_) => 2,
        }
    }

    /// The label width of the stage with an index from 0.
    pub(crate) fn width(self, i: usize) -> usize {
        match self {
            Chain::ReedMuller(r) => {
                let ones = r.saturating_sub(i.min(16) as u32);
                count_with_ones(0, 1 << r.min(4), ones)
            }
            Chain::Even(n) => {
                if i == 0 {
                    1
                } else {
                    (n as usize).saturating_sub(1)
                }
            }
        }
    }

    /// The distance of the stage with an index from 0.
    pub(crate) fn distance(self, i: usize) -> usize {
        match self {
            Chain::ReedMuller(_) => 1 << i.min(4),
            Chain::Even(_) => i.saturating_add(1),
        }
    }

    /// Puts the cells of a row of labels behind others.
    pub(crate) fn push_cells(self, labels: &[u8], cells: &mut Vec<u8>) -> Result<(), AllocError> {
        match self {
            Chain::ReedMuller(r) => push_reed_muller(r, labels, cells),
            Chain::Even(n) => push_even(n, labels, cells),
        }
    }
}

#[cfg(test)]
mod tests {
    use super::*;
    use std::test::Fail;

    // The label 4 of stage 2 is 1 0 0: the bit of the smallest number with two ones, 3. Cells 3 and 7 have both of its ones.
    #[test]
    fn labels_become_cells(rt: HostRuntime) -> Result<(), Fail> {
        let mut cells = Vec::new(rt.alloc());
        Chain::ReedMuller(3).push_cells(&[0, 4, 0, 0], &mut cells)?;
        assert!(rt; cells.as_slice() == [0, 0, 0, 1, 0, 0, 0, 1].as_slice());
        Ok(())
    }

    // The first three cells are 1 1 0, and the last makes the sum 1.
    #[test]
    fn an_even_chain_has_its_sum(rt: HostRuntime) -> Result<(), Fail> {
        let mut cells = Vec::new(rt.alloc());
        Chain::Even(4).push_cells(&[1, 6], &mut cells)?;
        assert!(rt; cells.as_slice() == [1, 1, 0, 1].as_slice());
        Ok(())
    }

    #[test]
    fn widths_count_choices(rt: HostRuntime) {
        let widths = [0, 1, 2, 3, 4].map(|i| Chain::ReedMuller(4).width(i));
        assert!(rt; widths == [1, 4, 6, 4, 1]);
    }
}
