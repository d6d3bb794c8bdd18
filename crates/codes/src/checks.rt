// The checks of a code's buffers, in the order message, word, marks.
ghost use Rattle.std.specs.Prelude.{◌≡◌, ◌<◌, ◌≤◌, [], ◌∷◌, MatchResult};
ghost use Rattle.words.specs.declared.fault.Kind.TheVariants.{NoCodeword};
ghost use Rattle.words.specs.declared.fault.Layer.TheVariants.{Code as the_code};
ghost use Rattle.words.specs.Buffers.{checked, refusal};
ghost use Rattle.words.specs.Faults.{fault};
ghost use Rattle.codes.specs.Promises.{values_below, written_to, marks_of};

use words::buffer::{Buffer, check_buffers};
use words::fault::{Fault, Kind, Layer};

/// What the calls of a code check their buffers against.
#[derive(Clone, Copy)]
pub struct Parameters {
    /// How many symbols there are; each is a number below.
    pub symbols: usize,
    /// K, the symbols of a message.
    pub message_len: usize,
    /// N, the symbols of a word.
    pub len: usize,
}

impl Parameters {
    /// The checks of encode: a message of symbols, and a word that is only written to.
    pub fn check_encode(self, message: &[u8], word: &[u8]) -> Result<(), Fault>
        ensures { result ≡ checked (refusal the_code (values_below self.symbols self.message_len message.now ∷ written_to self.len word.now ∷ [])) }
    {
        let buffers = [
            Buffer::new(message, self.message_len, self.symbols),
            Buffer::new(word, self.len, 256),
        ];
        check_buffers(Layer::Code, &buffers)
    }

    /// The checks of message-of: a message that is only written to, and a word of symbols.
    pub fn check_message_of(self, word: &[u8], message: &[u8]) -> Result<(), Fault>
        ensures { result ≡ checked (refusal the_code (written_to self.message_len message.now ∷ values_below self.symbols self.len word.now ∷ [])) }
    {
        let buffers = [
            Buffer::new(message, self.message_len, 256),
            Buffer::new(word, self.len, self.symbols),
        ];
        check_buffers(Layer::Code, &buffers)
    }

    /// The checks of correct: a word of symbols and its marks.
    pub fn check_correct(self, word: &[u8], marks: &[u8]) -> Result<(), Fault>
        ensures { result ≡ checked (refusal the_code (values_below self.symbols self.len word.now ∷ marks_of self.len marks.now ∷ [])) }
    {
        let buffers = [
            Buffer::new(word, self.len, self.symbols),
            Buffer::new(marks, self.len, 2),
        ];
        check_buffers(Layer::Code, &buffers)
    }
}

/// Refuses a harm that is not below a distance: the codeword that was found is not near enough.
pub fn check_near(harm: usize, distance: usize) -> Result<(), Fault>
    ensures { MatchResult result (λ _. harm < distance) (λ f. (distance ≤ harm) × (f ≡ fault NoCodeword the_code 0)) }
{
    if harm < distance {
        Ok(())
    } else {
        Err(Fault::new(Kind::NoCodeword, Layer::Code, 0))
    }
}
