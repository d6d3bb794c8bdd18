// What came of the words of some recipes.
use crate::reading::Answer;
use std::fmt;

/// How many times a call answered, and how many times it refused.
#[derive(Clone, Copy, Default)]
struct Answers {
    accepted: u64,
    refused: u64,
}

/// The answers of the library and of the other decoder to the same calls.
#[derive(Clone, Copy, Default)]
struct Both {
    library: Answers,
    other: Answers,
}

/// How many refusals had each place, from 0 to 5.
#[derive(Clone, Copy, Default)]
struct Places {
    counts: [u64; 6],
}

/// The recipes and words of one way to decide, the answers to both calls, and a digest of all that was drawn and answered.
#[derive(Clone, Copy, Default)]
pub(crate) struct Tally {
    recipes: u64,
    words: u64,
    correct: Both,
    library_places: Places,
    other_places: Places,
    message_of: Both,
    digest: u64,
}

impl Places {
    fn note(&mut self, answer: &Result<Answer, usize>) {
        if let Err(place) = answer
            && let Some(count) = self.counts.get_mut(*place)
        {
            *count = count.saturating_add(1);
        }
    }
}

impl Answers {
    fn note(&mut self, accepted: bool) {
        let count = if accepted {
            &mut self.accepted
        } else {
            &mut self.refused
        };
        *count = count.saturating_add(1);
    }
}

impl Tally {
    fn digest(&mut self, bytes: &[u8]) {
        for byte in bytes {
            self.digest = self.digest.wrapping_mul(31).wrapping_add(u64::from(*byte));
        }
    }

    /// Begins a recipe.
    pub(crate) fn note_recipe(&mut self, bytes: &[u8]) {
        self.recipes = self.recipes.saturating_add(1);
        self.digest(bytes);
    }

    /// Begins a word.
    pub(crate) fn note_word(&mut self, word: &[u8], marks: &[u8]) {
        self.words = self.words.saturating_add(1);
        self.digest(word);
        self.digest(marks);
    }

    /// Notes what both answer to correct, and where they refuse.
    pub(crate) fn note_correct(
        &mut self,
        library: &Result<Answer, usize>,
        other: &Result<Answer, usize>,
    ) {
        self.correct.library.note(library.is_ok());
        self.correct.other.note(other.is_ok());
        self.library_places.note(library);
        self.other_places.note(other);
        match library {
            Ok(
                Answer {
                    harm,
                    word,
                    message,
                },
            ) => {
                self.digest(&(*harm as u64).to_be_bytes());
                self.digest(word.as_slice());
                self.digest(message.as_slice());
            }
            Err(place) => self.digest(&(*place as u64).to_be_bytes()),
        }
    }

    /// Notes what both answer to message-of.
    pub(crate) fn note_message_of(
        &mut self,
        library: &Result<Answer, usize>,
        other: &Result<Answer, usize>,
    ) {
        self.message_of.library.note(library.is_ok());
        self.message_of.other.note(other.is_ok());
        if let Ok(answer) = library {
            self.digest(answer.message.as_slice());
        }
    }
}

impl fmt::Display for Places {
    fn fmt<W: fmt::Write>(&self, f: &mut fmt::Formatter<W>) -> fmt::Result {
        for count in self.counts.iter().skip(1) {
            write!(f, "{count} ")?;
        }
        write!(f, "and {}", self.counts[0])
    }
}

impl fmt::Display for Answers {
    fn fmt<W: fmt::Write>(&self, f: &mut fmt::Formatter<W>) -> fmt::Result {
        let Answers { accepted, refused } = *self;
        write!(f, "{accepted} accepted, {refused} refused")
    }
}

impl fmt::Display for Tally {
    fn fmt<W: fmt::Write>(&self, f: &mut fmt::Formatter<W>) -> fmt::Result {
        let Tally {
            recipes,
            words,
            correct,
            library_places,
            other_places,
            message_of,
            digest,
        } = *self;
        writeln!(f, "{recipes} recipes, {words} words, digest {digest}")?;
        writeln!(f, "  correct, library: {}", correct.library)?;
        writeln!(f, "  correct, other decoder: {}", correct.other)?;
        writeln!(
            f,
            "  refused at stages 1 to 5 and after the last, library: {library_places}"
        )?;
        writeln!(
            f,
            "  refused at stages 1 to 5 and after the last, other decoder: {other_places}"
        )?;
        writeln!(f, "  message-of, library: {}", message_of.library)?;
        write!(f, "  message-of, other decoder: {}", message_of.other)
    }
}
