// The calls of a pile beside the answers of the other decoder.
use crate::decoder::Decoder;
use crate::draws::Drawn;
use crate::failure::Failure;
use crate::nesting::nest;
use crate::places::Stages;
use crate::random::Random;
use crate::reading::{Answer, Reading};
use crate::tally::Tally;
use crate::text::{Cells, Hex, Told};
use crate::trials::{Trial, draw_bits};
use codes::code::Code;
use recipe_piles::making::pile_of;
use std::alloc::Global;
use std::fmt;
use words::fault::{Fault, Kind, Layer};

/// What a refusal leaves.
const UNCHANGED: &str = "refused, which changes nothing";

/// The numbers of a pile.
#[derive(Clone, Copy, PartialEq, Eq)]
struct Numbers {
    cells: usize,
    message_bits: usize,
    reach: usize,
}

/// A pile with its decoder, and what came of its words.
#[derive(Drop)]
pub(crate) struct Comparison<'a> {
    pub(crate) heap: Global,
    pub(crate) drawn: &'a Drawn,
    pub(crate) decoder: Decoder,
    pub(crate) stages: Stages,
    pub(crate) tally: &'a mut Tally,
}

impl fmt::Display for Numbers {
    fn fmt<W: fmt::Write>(&self, f: &mut fmt::Formatter<W>) -> fmt::Result {
        let Numbers {
            cells,
            message_bits,
            reach,
        } = *self;
        write!(
            f,
            "{cells} cells, {message_bits} message bits, reach {reach}"
        )
    }
}

impl Comparison<'_> {
    /// That the two differ in a call, which is given some cells.
    fn differ<L: fmt::Display, O: fmt::Display>(
        &self,
        call: &str,
        given: Cells<'_>,
        library: &L,
        other: &O,
    ) -> Result<(), Failure> {
        let recipe = Hex(self.drawn.bytes.as_slice());
        Err(Failure::Differs(format!(in self.heap;
            "{call} under {recipe} of {given}\nlibrary: {library}\nother decoder: {other}"
        )?))
    }

    /// What the library answers, or the place of its refusal since there is no codeword. The other decoder gives no other refusal.
    fn answered<T: Drop>(
        &self,
        call: &str,
        given: Cells<'_>,
        outcome: Result<T, Fault>,
    ) -> Result<Result<T, usize>, Failure> {
        let fault = match outcome {
            Ok(answer) => return Ok(Ok(answer)),
            Err(fault) => fault,
        };
        if fault.kind != Kind::NoCodeword || fault.layer != Layer::Code {
            self.differ(call, given, &fault, &"no such refusal")?;
        }
        Ok(Err(fault.place))
    }

    /// The codeword of a message by the library, which is to be the other encoder's.
    fn encode<C: Code>(&self, code: &C, message: &[u8]) -> Result<Vec<u8>, Failure> {
        let plan = &self.drawn.plan;
        let mut word = vec![in self.heap; 0; plan.cells()]?;
        code.encode(message, &mut word)?;
        let other = plan.encode(self.heap, message)?;
        if word != other {
            self.differ(
                "encode",
                Cells::readable(message),
                &Cells::readable(word.as_slice()),
                &Cells::readable(other.as_slice()),
            )?;
        }
        Ok(word)
    }

    /// What the library recovers from a word that may be no codeword, with the word and no harm, or the place of its refusal. That is to leave
    /// the room for the message as it was.
    fn recover<C: Code>(&self, code: &C, word: &[u8]) -> Result<Result<Answer, usize>, Failure> {
        let mut message = vec![in self.heap; 7; self.drawn.plan.message_bits()]?;
        let given = Cells::readable(word);
        let outcome = code.message_of(word, &mut message);
        let answer = self.answered("message-of", given, outcome)?;
        if answer.is_err() && message.iter().any(|bit| *bit != 7) {
            let wrote = Cells::readable(message.as_slice());
            self.differ("message-of", given, &wrote, &UNCHANGED)?;
        }
        let word = Vec::from_slice(self.heap, word)?;
        Ok(answer.map(|()| Answer {
            harm: 0,
            word,
            message,
        }))
    }

    /// What the library corrects a word to, with the message of that, or the place of its refusal. That is to leave the word as it was.
    fn correct<C: Code>(
        &self,
        code: &C,
        word: &[u8],
        marks: &[u8],
    ) -> Result<Result<Answer, usize>, Failure> {
        let mut room = Vec::from_slice(self.heap, word)?;
        let given = Cells { cells: word, marks };
        let outcome = code.correct(&mut room, marks);
        match self.answered("correct", given, outcome)? {
            Ok(harm) => {
                let recovered = self.recover(code, room.as_slice())?;
                Ok(recovered.map(|answer| Answer { harm, ..answer }))
            }
            Err(place) => {
                if room.as_slice() != word {
                    let wrote = Cells::readable(room.as_slice());
                    self.differ("correct", given, &wrote, &UNCHANGED)?;
                }
                Ok(Err(place))
            }
        }
    }

    /// Has both correct a word, and tell where they refuse it.
    fn compare_correct<C: Code>(
        &mut self,
        code: &C,
        word: &[u8],
        marks: &[u8],
    ) -> Result<(), Failure> {
        let heap = self.heap;
        let library = self.correct(code, word, marks)?;
        let reading = Reading::new(heap, word, marks)?;
        let reach = self.drawn.plan.reach();
        let other = match self.decoder.nearest(heap, &reading, reach)? {
            Some(answer) => Ok(answer),
            None => Err(self.stages.without_choice(heap, word, marks)?),
        };
        if library != other {
            let given = Cells { cells: word, marks };
            self.differ("correct", given, &Told(&library), &Told(&other))?;
        }
        self.tally.note_correct(&library, &other);
        Ok(())
    }

    /// Has both recover the message of a word's cells as they are.
    fn compare_message_of<C: Code>(&mut self, code: &C, word: &[u8]) -> Result<(), Failure> {
        let heap = self.heap;
        let clear = vec![in heap; 0; word.len()]?;
        let library = self.recover(code, word)?;
        let reading = Reading::new(heap, word, clear.as_slice())?;
        let other = self.decoder.nearest(heap, &reading, 1)?.ok_or(0);
        if library != other {
            let given = Cells::readable(word);
            self.differ("message-of", given, &Told(&library), &Told(&other))?;
        }
        self.tally.note_message_of(&library, &other);
        Ok(())
    }

    /// Draws the word of a turn and compares what both make of it.
    fn turn<C: Code>(
        &mut self,
        code: &C,
        random: &mut Random,
        fewest: usize,
        turn: usize,
    ) -> Result<(), Failure> {
        let heap = self.heap;
        let plan = &self.drawn.plan;
        let trial = Trial::new(random, plan.cells(), plan.reach(), fewest, turn);
        let mut word = if trial.stray {
            draw_bits(heap, random, plan.cells())?
        } else {
            let message = draw_bits(heap, random, plan.message_bits())?;
            self.encode(code, message.as_slice())?
        };
        let mut marks = vec![in heap; 0; word.len()]?;
        trial.spoil(random, &mut word, &mut marks);
        self.tally.note_word(word.as_slice(), marks.as_slice());
        self.compare_correct(code, word.as_slice(), marks.as_slice())?;
        self.compare_message_of(code, word.as_slice())
    }

    /// Compares the numbers of the library's pile with the plan's.
    fn compare_numbers<C: Code>(&self, code: &C) -> Result<(), Failure> {
        let library = Numbers {
            cells: code.len(),
            message_bits: code.message_len(),
            reach: code.distance(),
        };
        let plan = &self.drawn.plan;
        let other = Numbers {
            cells: plan.cells(),
            message_bits: plan.message_bits(),
            reach: plan.reach(),
        };
        if library == other {
            return Ok(());
        }
        self.differ("the pile", Cells::readable(&[]), &library, &other)
    }

    /// Compares so many words of the library's pile.
    fn run<C: Code>(&mut self, code: &C, random: &mut Random, words: usize) -> Result<(), Failure> {
        self.compare_numbers(code)?;
        self.tally.note_recipe(self.drawn.bytes.as_slice());
        let fewest = self.decoder.fewest_blanks(&self.drawn.plan);
        for turn in 0..words {
            self.turn(code, random, fewest, turn)?;
        }
        Ok(())
    }

    /// Makes the library's pile of the recipes, and compares so many of its words.
    pub(crate) fn run_drawn(&mut self, random: &mut Random, words: usize) -> Result<(), Failure> {
        let heap = self.heap;
        let drawn = self.drawn;
        match drawn.recipes.as_slice() {
            [recipe] => self.run(&pile_of(recipe)?, random, words),
            [inner, outer] => {
                let pile = nest(heap, outer, pile_of(inner)?)?;
                self.run(&pile, random, words)
            }
            [inner, middle, outer] => {
                let pile = nest(heap, outer, nest(heap, middle, pile_of(inner)?)?)?;
                self.run(&pile, random, words)
            }
            _ => Err(Failure::NoRecipe),
        }
    }
}
