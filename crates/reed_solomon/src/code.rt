// The Reed-Solomon code of a field, a length and a message length.
ghost use Rattle.std.specs.Prelude.{◌≡◌, Err, IfErr, None, OnOk, take};
ghost use Rattle.words.specs.Buffers.{checked};
ghost use Rattle.words.specs.Soundness.{Refused, Sound};
ghost use Rattle.fields.specs.Answers.{unlawful};
ghost use Rattle.codes.specs.Parameters.{parameters_of};
ghost use Rattle.codes.specs.Promises.{Corrected, Encoded, Recovered};
ghost use Rattle.reed_solomon_laws.specs.Words.{Codeword, refusal_over, reed_solomon};
ghost use Rattle.reed_solomon.specs.Making.{Makes, Refuses};
ghost use Rattle.reed_solomon_laws.proofs.Fitting.{code_lawful};

use crate::codewords::{recognize, write_codeword};
use crate::search::replace;
use codes::checks::Parameters;
use codes::code::Code;
use fields::field::Field;
use words::fault::{Fault, Kind, Layer};

/// The values of polynomials of degree below K at the first N elements of a field; the message is the first K values.
#[derive(Clone, Copy)]
pub struct ReedSolomon<F> {
    field: F,
    len: usize,
    message_len: usize,
}

impl<F: Field + Drop> ReedSolomon<F> {
    /// The code of N = `len` and K = `message_len`. A field that is not sound refuses with 13; then 14 unless K is from 1 to N and
    /// N is at most the number of elements.
    pub fn new(field: F, len: usize, message_len: usize) -> Result<Self, Fault>
        ensures { Makes (Sound F.Field.refusal field) (F.Field.model field) len message_len (λ (c : ReedSolomon F). (c.field ≡ field) × (c.len ≡ len) × (c.message_len ≡ message_len)) result }
    {
        check_kind(&field, len, message_len)?;
        Ok(ReedSolomon {
            field,
            len,
            message_len,
        })
    }
}

/// Ok if the field is sound and the lengths are those of the kind.
fn check_kind<F: Field>(field: &F, len: usize, message_len: usize) -> Result<(), Fault>
    ensures refused { result ≡ checked (refusal_over (F.refusal field.now) (F.model field.now) len message_len) }
    ensures order { IfErr result (Refuses (Sound F.refusal field.now) (F.model field.now) len message_len) }
{
    field.check()?;
    if len > 1 << field.width() || !(1..=len).contains(&message_len) {
        return Err(Fault::new(Kind::OutsideKind, Layer::Code, 0));
    }
    Ok(())
}

impl<F: Field> ReedSolomon<F> {
    fn parameters(&self) -> Parameters
        requires { Sound F.Field.refusal self.now.field }
        ensures { result ≡ parameters_of (reed_solomon (F.Field.model self.now.field) self.now.len self.now.message_len) }
    {
        Parameters {
            symbols: 1 << self.field.width(),
            message_len: self.message_len,
            len: self.len,
        }
    }
}

impl<F: Field> Code for ReedSolomon<F> {
    ghost model = { λ c. reed_solomon (F.Field.model c.field) c.len c.message_len };

    ghost refusal = { λ c. refusal_over (F.Field.refusal c.field) (F.Field.model c.field) c.len c.message_len };

    ghost lawful = { λ c s. code_lawful (F.Field.model c.field) c.len c.message_len (F.Field.refusal c.field) (F.Field.lawful c.field) s };

    /// Ok if the field is sound and the lengths are those of the kind. A field that is not sound refuses with 13.
    fn check(&self) -> Result<(), Fault>
        ensures refused { result ≡ checked (refusal_over (F.refusal self.now.field) (F.model self.now.field)
            self.now.len self.now.message_len) }
        ensures order { IfErr result (Refuses (Sound F.refusal self.now.field) (F.model self.now.field)
            self.now.len self.now.message_len) }
    {
        check_kind(&self.field, self.len, self.message_len)
    }

    fn width(&self) -> usize {
        self.field.width() as usize
    }

    // Of any code, sound or not, its length and message length are those that it was asked for.
    fn len(&self) -> usize
        ensures { result ≡ self.now.len }
    {
        self.len
    }

    fn message_len(&self) -> usize
        ensures { result ≡ self.now.message_len }
    {
        self.message_len
    }

    fn distance(&self) -> usize {
        self.len.saturating_sub(self.message_len).saturating_add(1)
    }

    /// Writes the codeword of a message: the values of one polynomial of K coefficients, of which the first K are the message.
    fn encode(&self, message: &[u8], word: &mut [u8]) -> Result<(), Fault>
        ensures sound { refusal_over (F.refusal self.now.field) (F.model self.now.field)
            self.now.len self.now.message_len ≡ None →
            Encoded (reed_solomon (F.model self.now.field) self.now.len self.now.message_len)
            message.now word.old word.new result }
        ensures refused { Refused (refusal_over (F.refusal self.now.field) (F.model self.now.field)
            self.now.len self.now.message_len) result (word.new ≡ word.old) }
        ensures unlawful { (Sound F.refusal self.now.field → ⊥) → result ≡ Err unlawful }
        ensures values { OnOk result (Codeword (F.model self.now.field)
            self.now.len self.now.message_len word.new) }
        ensures begins { OnOk result (take self.now.message_len word.new ≡ message.now) }
    {
        self.check()?;
        self.parameters().check_encode(message, word)?;
        write_codeword(&self.field, message, word);
        Ok(())
    }

    /// Writes the message of a codeword, its first K symbols. A word that is accepted is the values of one polynomial of K coefficients.
    fn message_of(&self, word: &[u8], message: &mut [u8]) -> Result<(), Fault>
        ensures sound { refusal_over (F.refusal self.now.field) (F.model self.now.field)
            self.now.len self.now.message_len ≡ None →
            Recovered (reed_solomon (F.model self.now.field) self.now.len self.now.message_len)
            word.now message.old message.new result }
        ensures refused { Refused (refusal_over (F.refusal self.now.field) (F.model self.now.field)
            self.now.len self.now.message_len) result (message.new ≡ message.old) }
        ensures unlawful { (Sound F.refusal self.now.field → ⊥) → result ≡ Err unlawful }
        ensures values { OnOk result (Codeword (F.model self.now.field)
            self.now.len self.now.message_len word.now) }
        ensures begins { OnOk result (take self.now.message_len word.now ≡ message.new) }
    {
        self.check()?;
        self.parameters().check_message_of(word, message)?;
        recognize(&self.field, &word[..self.message_len], word)?;
        message.copy_from_slice(&word[..self.message_len]);
        Ok(())
    }

    /// Puts the near codeword in place of a word: the values of one polynomial of K coefficients.
    fn correct(&self, word: &mut [u8], marks: &[u8]) -> Result<usize, Fault>
        ensures sound { refusal_over (F.refusal self.now.field) (F.model self.now.field)
            self.now.len self.now.message_len ≡ None →
            Corrected (reed_solomon (F.model self.now.field) self.now.len self.now.message_len)
            word.old marks.now word.new result }
        ensures refused { Refused (refusal_over (F.refusal self.now.field) (F.model self.now.field)
            self.now.len self.now.message_len) result (word.new ≡ word.old) }
        ensures unlawful { (Sound F.refusal self.now.field → ⊥) → result ≡ Err unlawful }
        ensures values { OnOk result (Codeword (F.model self.now.field)
            self.now.len self.now.message_len word.new) }
    {
        self.check()?;
        self.parameters().check_correct(word, marks)?;
        replace(&self.field, self.message_len, word, marks)
    }
}
