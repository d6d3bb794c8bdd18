// The repetition code: one symbol, N times over.
// The room to work in is arrays, cut to length, since libraries use no heap.
ghost use Rattle.std.specs.Prelude.{◌≡◌, ℕ, ◌<◌, ◌≤◌, length, replicate, None, Ok, ◌==◌};
ghost use Rattle.std.specs.List.{All, list_all};
ghost use Rattle.words.specs.Harm.{harm as harm_of};
ghost use Rattle.codes.specs.Kinds.{repetition_code, readable_count, MostFrequent, Counted};
ghost use Rattle.codes.specs.Making.{InRange, Made};
ghost use Rattle.codes.specs.Parameters.{parameters_of};
ghost use Rattle.codes.specs.Repeats.{repetition_lawful};

use crate::checks::{Parameters, check_near};
use crate::code::Code;
use crate::size::Size;
use words::fault::{Fault, Kind, Layer};
use words::harms::harm;
use words::limits::MOST_CELLS;

/// The repetition code of a width and a length: K = 1 and D = N.
#[derive(Clone, Copy)]
pub struct Repetition {
    size: Size,
}

impl Repetition {
    /// Refuses a width outside 1 to 8 and a length outside 1 to 4,096.
    pub fn new(width: usize, len: usize) -> Result<Self, Fault>
        ensures { Made (InRange width len) (λ c. (c.size.width ≡ width) × (c.size.len ≡ len)) result }
    {
        let size = Size::new(width, len)?;
        Ok(Repetition { size })
    }

    fn parameters(&self) -> Parameters
        ensures { result ≡ parameters_of (repetition_code self.now.size.width self.now.size.len) }
    {
        self.size.parameters(1)
    }
}

fn repeats(word: &[u8], symbol: u8) -> bool
    ensures { result ≡ list_all (λ x. x == symbol) word.now }
{
    word.iter().all(|x| *x == symbol)
}

// The least symbol whose count none exceeds. A loop: `max_by_key` answers the last of the greatest, and `rev` before it
// would hide which is wanted.
fn pick(counts: &[u16]) -> usize
    requires { 0 < length counts.now }
    ensures { MostFrequent counts.now result }
{
    let mut best = 0;
    for (symbol, count) in counts.iter().enumerate() {
        if *count > counts[best] {
            best = symbol;
        }
    }
    best
}

// A word to be corrected, and its marks. That a symbol is a byte is a fact of its own, since a proof knows no range of what a field borrows.
#[derive(Clone, Copy)]
struct Damaged<'a> {
    word: &'a [u8],
    marks: &'a [u8],
    ghost short: { length word.now ≤ 4096 },
    ghost paired: { length marks.now ≡ length word.now },
    ghost symbols_small: { All (λ w. w < 256) word.now },
    ghost marks_small: { All (λ m. m < 2) marks.now },
}

impl Damaged<'_> {
    // Counts, for each symbol, the readable places that hold it.
    fn count_symbols(&self, counts: &mut [u16; 256])
        requires { counts.old ≡ replicate 256 0 }
        ensures { Counted self.now.word.now self.now.marks.now counts.new }
    {
        // By index: over a zip the proof is longer, which has to say at each turn where its pair stands.
        for (i, symbol) in self.word.iter().enumerate() {
            if self.marks[i] == 0 {
                counts[usize::from(*symbol)] += 1;
            }
        }
    }

    // The least symbol, of so many, that no other exceeds in readable places.
    fn majority(&self, symbols: usize) -> u8
        requires { (0 < symbols) × (symbols ≤ 256) }
        ensures { (result < symbols) × ((x : ℕ) → x < symbols → readable_count x self.now.word.now self.now.marks.now ≤ readable_count result self.now.word.now self.now.marks.now) }
    {
        let mut counts = [0; 256];
        self.count_symbols(&mut counts);
        pick(&counts[0..symbols]) as u8
    }

    fn harm_against(&self, symbol: u8) -> Result<usize, Fault>
        ensures { result ≡ Ok (harm_of self.now.word.now self.now.marks.now (replicate (length self.now.word.now) symbol)) }
    {
        let codeword = [symbol; MOST_CELLS];
        harm(
            Layer::Code,
            self.word,
            self.marks,
            &codeword[0..self.word.len()],
        )
    }
}

impl Code for Repetition {
    ghost model = { λ c. repetition_code c.size.width c.size.len };

    // its numbers are those of its kind, by its type
    ghost refusal = { λ _. None };

    ghost lawful = { λ c s. repetition_lawful c.size.width c.size.len ((c.size.some_width, c.size.narrow), (c.size.some_places, c.size.short)) };

    fn check(&self) -> Result<(), Fault> {
        Ok(())
    }

    fn width(&self) -> usize {
        self.size.width
    }

    fn len(&self) -> usize {
        self.size.len
    }

    fn message_len(&self) -> usize {
        1
    }

    fn distance(&self) -> usize {
        self.size.len
    }

    fn encode(&self, message: &[u8], word: &mut [u8]) -> Result<(), Fault> {
        self.parameters().check_encode(message, word)?;
        word.fill(message[0]);
        Ok(())
    }

    fn message_of(&self, word: &[u8], message: &mut [u8]) -> Result<(), Fault> {
        self.parameters().check_message_of(word, message)?;
        let first = word[0];
        if !repeats(word, first) {
            return Err(Fault::new(Kind::NoCodeword, Layer::Code, 0));
        }
        message[0] = first;
        Ok(())
    }

    fn correct(&self, word: &mut [u8], marks: &[u8]) -> Result<usize, Fault> {
        let parameters = self.parameters();
        parameters.check_correct(word, marks)?;
        let damaged = Damaged { word, marks };
        let symbol = damaged.majority(parameters.symbols);
        let found = damaged.harm_against(symbol)?;
        check_near(found, self.size.len)?;
        word.fill(symbol);
        Ok(found)
    }
}
