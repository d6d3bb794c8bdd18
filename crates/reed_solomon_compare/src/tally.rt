// What came of a field's words.
use std::fmt;

/// How many words were corrected and refused, how many answers were not those sought, and a digest of harms and words after correct.
#[derive(Clone, Copy, Default)]
pub struct Tally {
    accepted: u64,
    refused: u64,
    differing: u64,
    digest: u64,
}

impl Tally {
    /// Notes whether two answers were the same.
    pub fn hold(&mut self, same: bool) {
        if !same {
            self.differing = self.differing.wrapping_add(1);
        }
    }

    fn digest(&mut self, number: u64) {
        self.digest = self.digest.wrapping_mul(31).wrapping_add(number);
    }

    /// Notes an answer of correct, and the word after it.
    pub fn note(&mut self, answer: Option<usize>, word: &[u8]) {
        match answer {
            Some(harm) => {
                self.accepted = self.accepted.wrapping_add(1);
                self.digest(harm as u64);
            }
            None => self.refused = self.refused.wrapping_add(1),
        }
        for symbol in word {
            self.digest(u64::from(*symbol));
        }
    }
}

impl fmt::Display for Tally {
    fn fmt<W: fmt::Write>(&self, f: &mut fmt::Formatter<W>) -> fmt::Result {
        let Tally {
            accepted,
            refused,
            differing,
            digest,
        } = *self;
        write!(
            f,
            "{accepted} accepted, {refused} refused, {differing} differing, digest {digest}"
        )
    }
}
