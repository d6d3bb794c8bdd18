// What every code offers.
ghost use Rattle.std.specs.Prelude.{◌≡◌, None, Option};
ghost use Rattle.words.specs.declared.fault.Fault.{Fault};
ghost use Rattle.words.specs.Buffers.{checked};
ghost use Rattle.words.specs.Soundness.{Refused, Sound};
ghost use Rattle.codes.specs.Model.{CodeModel, Lawful, OnlyOneNear};
ghost use Rattle.codes.specs.Promises.{AnsweredExactly, Encoded, Recovered, Corrected, OneCorrection, OneRecovery};

use words::fault::Fault;

/// A block code: messages of K symbols, codewords of N symbols, and a distance D.
///
/// A code whose parts do not fit is not sound: `check` refuses it, and so does each of its calls, by the same fault and
/// changing nothing.
pub trait Code {
    ghost model: { Self → CodeModel };

    // the fault that the check and each call of a code give whose parts do not fit; none of a sound code
    ghost refusal: { Self → Option Fault };

    /// Answers exactly where the code is sound.
    fn check(&self) -> Result<(), Fault>
        ensures { result ≡ checked (refusal self.now) };

    // Of a code that is not sound these four answer any number: its parts may be of any kind, and have none of their own then.

    /// The bits of a symbol.
    fn width(&self) -> usize
        ensures { Sound refusal self.now → result ≡ (model self.now).width };

    /// N, the symbols of a codeword.
    fn len(&self) -> usize
        ensures { Sound refusal self.now → result ≡ (model self.now).len };

    /// K, the symbols of a message.
    fn message_len(&self) -> usize
        ensures { Sound refusal self.now → result ≡ (model self.now).message_len };

    /// D: codewords of different messages differ in at least so many places.
    fn distance(&self) -> usize
        ensures { Sound refusal self.now → result ≡ (model self.now).distance };

    /// Writes the codeword of a message.
    fn encode(&self, message: &[u8], word: &mut [u8]) -> Result<(), Fault>
        ensures sound { Sound refusal self.now → Encoded (model self.now) message.now word.old word.new result }
        ensures refused { Refused (refusal self.now) result (word.new ≡ word.old) };

    /// Writes the message of a codeword, and refuses any other word.
    fn message_of(&self, word: &[u8], message: &mut [u8]) -> Result<(), Fault>
        ensures sound { Sound refusal self.now → Recovered (model self.now) word.now message.old message.new result }
        ensures refused { Refused (refusal self.now) result (message.new ≡ message.old) };

    /// Puts the codeword at harm below D in place of a word and answers that harm, or refuses where there is none.
    // A word and its marks are two buffers, as the rules have them.
    fn correct(&self, word: &mut [u8], marks: &[u8]) -> Result<usize, Fault>
        ensures sound { Sound refusal self.now → Corrected (model self.now) word.old marks.now word.new result }
        ensures refused { Refused (refusal self.now) result (word.new ≡ word.old) };

    ghost lawful: { (c : Self) → Sound refusal c → Lawful (model c) };
}

/// Corrects a word of any code. A word has at most one codeword that is near enough, and a refusal at most one place, so that the rules
/// leave one answer and one word.
pub fn correct_word<C: Code>(code: &C, word: &mut [u8], marks: &[u8]) -> Result<usize, Fault>
    ensures sound { Sound C.Code.refusal code.now → Corrected (C.Code.model code.now) word.old marks.now word.new result }
    ensures refused { Refused (C.Code.refusal code.now) result (word.new ≡ word.old) }
    ensures exactly { Sound C.Code.refusal code.now → AnsweredExactly (C.Code.model code.now) word.old marks.now result }
    ensures only { Sound C.Code.refusal code.now → OnlyOneNear (C.Code.model code.now) word.old marks.now }
    ensures single { Sound C.Code.refusal code.now → OneCorrection (C.Code.model code.now) word.old marks.now }
{
    code.correct(word, marks)
}

/// Recovers the message of a codeword of any code. Different messages have different codewords, so that the rules leave one message.
pub fn recover_message<C: Code>(code: &C, word: &[u8], message: &mut [u8]) -> Result<(), Fault>
    ensures sound { Sound C.Code.refusal code.now → Recovered (C.Code.model code.now) word.now message.old message.new result }
    ensures refused { Refused (C.Code.refusal code.now) result (message.new ≡ message.old) }
    ensures single { Sound C.Code.refusal code.now → OneRecovery (C.Code.model code.now) word.now message.old }
{
    code.message_of(word, message)
}
