// Words made at random: lengths, messages and damage, from a seed.
use by_elimination::decoder::Word;
use std::alloc::{AllocError, Global};

/// Numbers that look random.
#[derive(Clone, Copy)]
pub struct Draw {
    state: u64,
}

/// The lengths of a code, and how many places of a codeword are made blank and wrong.
#[derive(Clone, Copy)]
pub struct Trial {
    pub n: usize,
    pub k: usize,
    pub blanks: usize,
    pub errors: usize,
}

impl Draw {
    pub fn new() -> Self {
        Draw { state: 1 }
    }

    fn next(&mut self) -> u64 {
        self.state = self
            .state
            .wrapping_mul(6364136223846793005)
            .wrapping_add(1442695040888963407);
        self.state >> 33
    }

    /// A number below n.
    fn below(&mut self, n: usize) -> usize {
        (self.next() % n.max(1) as u64) as usize
    }

    /// A symbol below `size`, which is at most 256.
    fn symbol(&mut self, size: usize) -> u8 {
        (self.below(size) % 256) as u8
    }

    /// Mostly short, now and then as long as the field has elements.
    fn length(&mut self, size: usize, turn: usize) -> usize {
        if turn % 8 == 0 {
            1
        } else if turn % 64 == 12 {
            size.min(256)
        } else {
            self.below(size.min(24)).saturating_add(1)
        }
    }

    fn message_length(&mut self, n: usize, turn: usize) -> usize {
        match turn % 8 {
            1 => n,
            2 => 1,
            _ => self.below(n).saturating_add(1),
        }
    }

    /// The harm to aim at: around the distance d, and anything.
    fn aim(&mut self, n: usize, d: usize, turn: usize) -> usize {
        match turn % 5 {
            0 => d.saturating_sub(1),
            1 => d,
            2 => d.saturating_add(1),
            3 => self.below(d),
            _ => self.below(n.saturating_mul(2)),
        }
    }

    /// The trial of a turn; each eighth or so has N = 1, K = N, K = 1 or no readable place.
    pub fn trial(&mut self, size: usize, turn: usize) -> Trial {
        let n = self.length(size, turn);
        let k = self.message_length(n, turn);
        let harm = self.aim(n, n.saturating_sub(k).saturating_add(1), turn);
        let drawn = self.below(harm.min(n).saturating_add(1));
        let odd = harm.saturating_sub(drawn) % 2;
        let even = if drawn > 0 { drawn - odd } else { odd };
        let blanks = if turn % 16 == 3 { n } else { even };
        let errors = (harm.saturating_sub(blanks) / 2).min(n.saturating_sub(blanks));
        Trial {
            n,
            k,
            blanks,
            errors,
        }
    }

    /// A message of k symbols at random.
    pub fn message(&mut self, alloc: Global, size: usize, k: usize) -> Result<Word, AllocError> {
        (0..k).map(|_| self.symbol(size)).collect(alloc)
    }

    /// Makes places of a codeword blank and wrong, all choices alike.
    pub fn spoil(&mut self, size: usize, trial: Trial, word: &mut [u8], marks: &mut [u8]) {
        let mut blanks = trial.blanks;
        let mut errors = trial.errors;
        let mut left = word.len();
        for (symbol, mark) in word.iter_mut().zip(marks.iter_mut()) {
            let pick = self.below(left);
            let other = self.symbol(size.saturating_sub(1));
            left = left.saturating_sub(1);
            let blank = pick < blanks;
            let wrong = !blank && pick - blanks < errors;
            if blank {
                blanks -= 1;
            }
            if wrong {
                errors -= 1;
            }
            if blank || wrong {
                *symbol ^= other.saturating_add(1);
            }
            *mark = u8::from(blank);
        }
    }
}
