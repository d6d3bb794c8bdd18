// A pile of a chain and its codes.
ghost use Rattle.std.specs.Prelude.{◌≡◌, ◌*◌, ◌≤◌, ◌↔◌, map, length, take, None, Some, IfErr, IfOk, IsOk, MatchResult, OnOk, OnSome};
ghost use Rattle.words.specs.declared.fault.Layer.TheVariants.{Code as the_code};
ghost use Rattle.words.specs.Buffers.{answered, checked, refusal as refusal_of};
ghost use Rattle.words.specs.Soundness.{Refused, Sound};
ghost use Rattle.codes.specs.Model.{Lawful, Message, OnlyOneNear};
ghost use Rattle.codes.specs.Parameters.{parameters_of};
ghost use Rattle.codes.specs.Promises.{AnsweredExactly, Corrected, OneCorrection, OneRecovery, Recovered};
ghost use Rattle.codes.proofs.Working.{correct_buffers, message_of_buffers};
ghost use Rattle.pile_laws.specs.Build.{columns as columns_of};
ghost use Rattle.piles.specs.FromRefusal.{parts_lawful};
ghost use Rattle.piles.specs.Sound.{LieApart, SoundParts, SoundPile, parts_model, parts_refusal, pile_model, pile_refusal, stages_of};

use crate::choices::Search;
use crate::columns::lay_columns;
use crate::fit::{check_parts, count_columns};
use crate::messages::encode_stages;
use crate::numbers::{count_bits, least_reach};
use crate::recovery::recover_stages;
use chains::chain::Chain;
use codes::checks::Parameters;
use codes::code::Code;
use words::fault::{Fault, Kind, Layer};
use words::limits::{MOST_CELLS, MOST_STAGES};

/// The most labels of a pile: five for each of 4,096 columns.
const MOST_LABELS: usize = MOST_STAGES * MOST_CELLS;

/// A chain and one outer code for each of its stages: a generalised concatenated code.
#[derive(Clone, Copy)]
pub struct Pile<H, A> {
    chain: H,
    // An array and how much of it is used: the library has no heap, and the kit's ArrayVec wants a default for its free places.
    // That at most five are used is no ghost field, since no Clone is derived over one for a generic type.
    stages: [A; MOST_STAGES],
    used: usize,
}

impl<H, A> Pile<H, A> {
    /// The codes of the stages.
    fn codes(&self) -> &[A]
        ensures { result.now ≡ take self.now.used self.now.stages }
    {
        let whole = &self.stages[..];
        if self.used < whole.len() {
            &whole[0..self.used]
        } else {
            whole
        }
    }
}

impl<H: Chain, A: Code> Pile<H, A> {
    /// The reach, or the refusal of parts that are not sound or do not fit.
    fn reach(&self) -> Result<usize, Fault>
        ensures { result ≡ answered (pile_refusal H.Chain A.Code self.now) (pile_model H.Chain A.Code self.now).distance }
    {
        let codes = self.codes();
        check_parts(&self.chain, codes)?;
        least_reach(&self.chain, codes)
    }
}

impl<H: Chain + Drop, A: Code + Copy> Pile<H, A> {
    /// Joins a chain and a code for each of its stages. The refusal of a chain that is not sound comes first, then that of the first code
    /// that is not, and then 15: at the first stage that is missing, extra, of another width than the chain's or of another length
    /// than stage 1's, and at 0 where only the cells are too many.
    pub fn new(chain: H, codes: &[A]) -> Result<Self, Fault>
        ensures made { IfOk result (λ p. (p.chain ≡ chain) × (stages_of H.Chain A.Code p ≡ codes.now)) }
        ensures sound { OnOk result (SoundParts H.Chain A.Code chain codes.now) }
        ensures refused { IfErr result (λ f. parts_refusal H.Chain A.Code chain codes.now ≡ Some f) }
    {
        check_parts(&chain, codes)?;
        let mut stages = [codes[0]; MOST_STAGES];
        stages[..codes.len()].copy_from_slice(codes);
        Ok(Pile {
            chain,
            stages,
            used: codes.len(),
        })
    }
}

/// The cells of a pile whose parts are sound and fit.
fn count_cells<H: Chain, A: Code>(chain: &H, codes: &[A]) -> usize
    requires { SoundParts H.Chain A.Code chain.now codes.now }
    ensures value { result ≡ (H.Chain.model chain.now).breadth * columns_of (map A.Code.model codes.now) }
    ensures bound { result ≤ 4096 }
{
    chain.breadth() * count_columns(codes)
}

/// What the calls of a pile check their buffers against.
fn parameters<H: Chain, A: Code>(chain: &H, codes: &[A]) -> Parameters
    requires { SoundParts H.Chain A.Code chain.now codes.now }
    ensures { result ≡ parameters_of (parts_model H.Chain A.Code chain.now codes.now) }
{
    Parameters {
        symbols: 2,
        message_len: count_bits(codes),
        len: count_cells(chain, codes),
    }
}

/// Writes the codeword of a message.
fn write_codeword<H: Chain, A: Code>(
    chain: &H,
    codes: &[A],
    message: &[u8],
    word: &mut [u8],
) -> Result<(), Fault>
    requires parts { SoundParts H.Chain A.Code chain.now codes.now }
    requires message { Message (parts_model H.Chain A.Code chain.now codes.now) message.now }
    requires word { length word.old ≡ (H.Chain.model chain.now).breadth * columns_of (map A.Code.model codes.now) }
    ensures { MatchResult result (λ _. word.new ≡ (parts_model H.Chain A.Code chain.now codes.now).codeword message.now) (λ _. ⊥) }
{
    let columns = count_columns(codes);
    let mut words = [0; MOST_LABELS];
    encode_stages(codes, message, columns, &mut words)?;
    lay_columns(chain, &words, columns, word)
}

/// Writes the message of a codeword, and refuses any other word with 12 at place 0.
fn recover<H: Chain, A: Code>(
    chain: &H,
    codes: &[A],
    word: &[u8],
    message: &mut [u8],
) -> Result<(), Fault>
    requires parts { SoundParts H.Chain A.Code chain.now codes.now }
    requires word { (refusal_of the_code (message_of_buffers (parts_model H.Chain A.Code chain.now codes.now) 2 message.old word.now) ≡ None) × ((length word.now ≤ 4096) × (length message.old ≤ 4096)) }
    ensures { Recovered (parts_model H.Chain A.Code chain.now codes.now) word.now message.old message.new result }
{
    let columns = count_columns(codes);
    let marks = [0; MOST_CELLS];
    let mut words = [0; MOST_LABELS];
    let mut room = [0; MOST_CELLS];
    let found = &mut room[..word.len()];
    let search = Search {
        chain,
        codes,
        columns,
        word,
        marks: &marks[..word.len()],
    };
    search.recognize(&mut words, found)?;
    recover_stages(codes, columns, &words, message)
}

/// Puts the codeword at harm below the reach in place of a word and answers its harm, or refuses with 12.
fn replace<H: Chain, A: Code>(
    chain: &H,
    codes: &[A],
    word: &mut [u8],
    marks: &[u8],
) -> Result<usize, Fault>
    requires parts { SoundParts H.Chain A.Code chain.now codes.now }
    requires word { (refusal_of the_code (correct_buffers (parts_model H.Chain A.Code chain.now codes.now) 2 word.old marks.now) ≡ None) × (length word.old ≤ 4096) }
    ensures { Corrected (parts_model H.Chain A.Code chain.now codes.now) word.old marks.now word.new result }
{
    let columns = count_columns(codes);
    let mut words = [0; MOST_LABELS];
    let mut room = [0; MOST_CELLS];
    let found = &mut room[..word.len()];
    let search = Search {
        chain,
        codes,
        columns,
        word,
        marks,
    };
    let harm = search.find(&mut words, found)?;
    word.copy_from_slice(found);
    Ok(harm)
}

impl<H: Chain, A: Code> Code for Pile<H, A> {
    ghost model = { pile_model H.Chain A.Code };

    ghost refusal = { pile_refusal H.Chain A.Code };

    ghost lawful = { λ p none. parts_lawful H.Chain.model H.Chain.refusal A.Code.model A.Code.refusal H.Chain.lawful A.Code.lawful p.chain (take p.used p.stages) none };

    /// Refuses parts that are not sound or do not fit each other. A pile that passes is a lawful code: the codewords of different messages
    /// differ in at least as many cells as the reach, and a message is no longer than its codeword.
    // The trait's own clause stands here again for the sake of the others, as it does at `correct`, so that all that holds of a
    // pile stands on one call.
    fn check(&self) -> Result<(), Fault>
        ensures refused { result ≡ checked (pile_refusal H.Chain A.Code self.now) }
        ensures sound { IsOk result ↔ SoundPile H.Chain A.Code self.now }
        ensures lawful { OnOk result (Lawful (pile_model H.Chain A.Code self.now)) }
    {
        check_parts(&self.chain, self.codes())
    }

    /// The bits of a symbol: a pile's symbols are cells.
    fn width(&self) -> usize
        ensures { result ≡ 1 }
    {
        1
    }

    // Of a pile that is not sound these three are 0.

    /// The cells of a codeword: a chain's cells for each column.
    fn len(&self) -> usize
        ensures sound { Sound (pile_refusal H.Chain A.Code) self.now → result ≡ (pile_model H.Chain A.Code self.now).len }
        ensures unsound { OnSome (pile_refusal H.Chain A.Code self.now) (result ≡ 0) }
    {
        match self.check() {
            Ok(()) => count_cells(&self.chain, self.codes()),
            Err(_) => 0,
        }
    }

    /// The bits of a message.
    fn message_len(&self) -> usize
        ensures sound { Sound (pile_refusal H.Chain A.Code) self.now → result ≡ (pile_model H.Chain A.Code self.now).message_len }
        ensures unsound { OnSome (pile_refusal H.Chain A.Code self.now) (result ≡ 0) }
    {
        match self.check() {
            Ok(()) => count_bits(self.codes()),
            Err(_) => 0,
        }
    }

    /// The reach: the least inner times outer distance over the stages.
    fn distance(&self) -> usize
        ensures sound { Sound (pile_refusal H.Chain A.Code) self.now → result ≡ (pile_model H.Chain A.Code self.now).distance }
        ensures unsound { OnSome (pile_refusal H.Chain A.Code self.now) (result ≡ 0) }
    {
        self.reach().unwrap_or(0)
    }

    fn encode(&self, message: &[u8], word: &mut [u8]) -> Result<(), Fault> {
        self.check()?;
        let codes = self.codes();
        parameters(&self.chain, codes).check_encode(message, word)?;
        write_codeword(&self.chain, codes, message, word)
    }

    /// Writes the message of a codeword, which is the only one that has it, and refuses any other word with 12 at place 0.
    fn message_of(&self, word: &[u8], message: &mut [u8]) -> Result<(), Fault>
        ensures sound { Sound (pile_refusal H.Chain A.Code) self.now → Recovered (pile_model H.Chain A.Code self.now) word.now message.old message.new result }
        ensures refused { Refused (pile_refusal H.Chain A.Code self.now) result (message.new ≡ message.old) }
        ensures single { Sound (pile_refusal H.Chain A.Code) self.now → OneRecovery (pile_model H.Chain A.Code self.now) word.now message.old }
    {
        self.check()?;
        let codes = self.codes();
        parameters(&self.chain, codes).check_message_of(word, message)?;
        recover(&self.chain, codes, word, message)
    }

    /// Puts the codeword at harm below the reach in place of a word and answers that harm. Refuses with 12 where there is none: at the first
    /// stage without a choice, or at 0 where all stages choose but the word that they make is too far. There is at most one codeword so
    /// near, since the codewords of different messages differ in at least as many cells as the reach.
    fn correct(&self, word: &mut [u8], marks: &[u8]) -> Result<usize, Fault>
        ensures sound { Sound (pile_refusal H.Chain A.Code) self.now → Corrected (pile_model H.Chain A.Code self.now) word.old marks.now word.new result }
        ensures refused { Refused (pile_refusal H.Chain A.Code self.now) result (word.new ≡ word.old) }
        ensures apart { Sound (pile_refusal H.Chain A.Code) self.now → LieApart (pile_model H.Chain A.Code self.now) }
        ensures only { Sound (pile_refusal H.Chain A.Code) self.now → OnlyOneNear (pile_model H.Chain A.Code self.now) word.old marks.now }
        ensures single { Sound (pile_refusal H.Chain A.Code) self.now → OneCorrection (pile_model H.Chain A.Code self.now) word.old marks.now }
        ensures exactly { Sound (pile_refusal H.Chain A.Code) self.now → AnsweredExactly (pile_model H.Chain A.Code self.now) word.old marks.now result }
    {
        self.check()?;
        let codes = self.codes();
        parameters(&self.chain, codes).check_correct(word, marks)?;
        replace(&self.chain, codes, word, marks)
    }
}
