// What came of a chain's readings.

use std::fmt;

/// What came of one reading.
#[derive(Clone, Copy, PartialEq, Eq)]
pub(crate) enum Outcome {
    Answered,
    Absent,
    Differing,
}

/// How many readings came to each outcome.
#[derive(Clone, Copy, Default)]
pub(crate) struct Tally {
    answers: u64,
    absent: u64,
    differing: u64,
}

impl Tally {
    /// Adds one reading.
    pub(crate) fn note(&mut self, outcome: Outcome) {
        let count = match outcome {
            Outcome::Answered => &mut self.answers,
            Outcome::Absent => &mut self.absent,
            Outcome::Differing => &mut self.differing,
        };
        *count = count.saturating_add(1);
    }
}

impl fmt::Display for Tally {
    fn fmt<W: fmt::Write>(&self, f: &mut fmt::Formatter<W>) -> fmt::Result {
        let answers = self.answers;
        let absent = self.absent;
        let differing = self.differing;
        write!(
            f,
            "{answers} answers, {absent} absent, {differing} differing"
        )
    }
}
