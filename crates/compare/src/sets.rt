// Sets of numbers, one after the other.

/// How many sets of t numbers below n there are.
pub(crate) fn count(n: usize, t: usize) -> usize {
    (0..t).fold(1, |all: usize, i| {
        all.saturating_mul(n.saturating_sub(i)) / i.saturating_add(1).max(1)
    })
}

/// Goes from a set of numbers below n, in rising order, to the next one; the last stays.
pub(crate) fn step(set: &mut [usize], n: usize) {
    let len = set.len();
    let rises = |i: &usize| match set.get(*i) {
        Some(number) => number.saturating_add(len.saturating_sub(*i)) < n,
        None => false,
    };
    let Some(i) = (0..len).rev().find(rises) else {
        return;
    };
    let first = set.get(i).copied().unwrap_or(0);
    for (j, number) in set.iter_mut().skip(i).enumerate() {
        *number = first.saturating_add(j).saturating_add(1);
    }
}

#[cfg(test)]
mod tests {
    use super::*;

    #[test]
    fn sets_are_counted(rt: HostRuntime) {
        assert_eq!(rt; count(64, 3), 41664);
        assert_eq!(rt; count(5, 0), 1);
        assert_eq!(rt; count(2, 3), 0);
    }

    #[test]
    fn a_set_goes_to_the_next(rt: HostRuntime) {
        let mut set = [0, 3, 4];
        step(&mut set, 5);
        assert!(rt; set == [1, 2, 3]);
        step(&mut set, 5);
        assert!(rt; set == [1, 2, 4]);
    }
}
