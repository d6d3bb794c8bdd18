// The calls of a code beside the decoder's answers.
use crate::tally::Tally;
use crate::trials::{Draw, Trial};
use by_elimination::decoder::{Decoder, Word, readings};
use codes::code::Code;
use fields::field::Field;
use reed_solomon::code::ReedSolomon;
use std::alloc::AllocError;
use std::iter::repeat_n;
use thiserror::Error;
use words::fault::{Fault, Kind};

const TURNS: usize = 400;

/// Why a comparison stops.
#[derive(Debug, Drop, Error)]
pub enum Stop {
    #[error("{0}")]
    Refused(#[from] Fault),
    #[error("no room")]
    NoRoom(#[from] AllocError),
}

/// An answer, absent where the refusal is that there is no codeword; any other refusal passes up.
fn answered<T: Drop>(res: Result<T, Fault>) -> Result<Option<T>, Fault> {
    match res {
        Ok(answer) => Ok(Some(answer)),
        Err(fault) if fault.kind == Kind::NoCodeword && fault.place == 0 => Ok(None),
        Err(fault) => Err(fault),
    }
}

/// The comparison of a field's codes with the decoder over the same field.
#[derive(Drop)]
pub struct Comparison<'a> {
    decoder: Decoder<'a>,
    size: usize,
    draw: Draw,
    tally: Tally,
}

impl<'a> Comparison<'a> {
    /// A comparison over a field of `size` elements.
    pub fn new(decoder: Decoder<'a>, size: usize) -> Self {
        Comparison {
            decoder,
            size,
            draw: Draw::new(),
            tally: Tally::default(),
        }
    }
}

impl Comparison<'_> {
    /// The word that the first k symbols of another determine.
    fn sought(&self, k: usize, n: usize, symbols: &[u8]) -> Result<Option<Word>, AllocError> {
        let alloc = self.decoder.alloc;
        let marks: Word = repeat_n(0, symbols.len()).collect(alloc)?;
        let all = readings(alloc, symbols, &marks)?;
        self.decoder.interpolate(k, n, &all)
    }

    /// Encodes a message, and recovers it. Answers the codeword.
    fn compare_encode<C: Code>(
        &mut self,
        code: &C,
        n: usize,
        message: &[u8],
    ) -> Result<Word, Stop> {
        let alloc = self.decoder.alloc;
        let mut word: Word = repeat_n(0, n).collect(alloc)?;
        let mut again: Word = repeat_n(0, message.len()).collect(alloc)?;
        code.encode(message, &mut word)?;
        code.message_of(&word, &mut again)?;
        let sought = self.sought(message.len(), n, message)?;
        self.tally.hold(sought.is_some_and(|sought| sought == word));
        self.tally.hold(again.as_slice() == message);
        Ok(word)
    }

    /// Recovers the message of a word that may be no codeword; a refusal is to leave the message sent as it was.
    fn compare_message_of<C: Code>(
        &mut self,
        code: &C,
        message: &[u8],
        word: &[u8],
    ) -> Result<(), Stop> {
        let mut again: Word = message.iter().copied().collect(self.decoder.alloc)?;
        let sought = self.sought(message.len(), word.len(), word)?;
        let recognized = sought.is_some_and(|sought| sought.as_slice() == word);
        let answer = answered(code.message_of(word, &mut again))?;
        self.tally.hold(answer.is_some() == recognized);
        let front = if recognized { word } else { message };
        self.tally.hold(front.starts_with(&again));
        Ok(())
    }

    /// Corrects a word; a refusal is to leave it as it was.
    fn compare_correct<C: Code>(
        &mut self,
        code: &C,
        k: usize,
        word: &mut [u8],
        marks: &[u8],
    ) -> Result<(), Stop> {
        let (harm, after) = match self.decoder.decode(k, word, marks)? {
            Some((harm, codeword)) => (Some(harm), codeword),
            None => (None, word.iter().copied().collect(self.decoder.alloc)?),
        };
        let answer = answered(code.correct(word, marks))?;
        self.tally.hold(answer == harm);
        self.tally.hold(after.as_slice() == &*word);
        self.tally.note(answer, word);
        Ok(())
    }

    /// One trial, from its message on.
    fn compare_code<C: Code>(&mut self, code: &C, trial: Trial) -> Result<(), Stop> {
        let alloc = self.decoder.alloc;
        let message = self.draw.message(alloc, self.size, trial.k)?;
        let mut word = self.compare_encode(code, trial.n, &message)?;
        let mut marks: Word = repeat_n(0, trial.n).collect(alloc)?;
        self.draw.spoil(self.size, trial, &mut word, &mut marks);
        self.compare_message_of(code, &message, &word)?;
        self.compare_correct(code, trial.k, &mut word, &marks)
    }

    /// All trials of a field.
    pub fn run<F: Field + Copy>(mut self, field: F) -> Result<Tally, Stop> {
        let size = self.size;
        for turn in 0..TURNS {
            let trial = self.draw.trial(size, turn);
            let code = ReedSolomon::new(field, trial.n, trial.k)?;
            self.compare_code(&code, trial)?;
        }
        Ok(self.tally)
    }
}
