// The search for the codeword that lies near to a word.
// Work space is arrays of the most symbols that a word has, since the library has no heap.
ghost use Rattle.std.specs.Prelude.{◌≡◌, ◌+◌, ◌-◌, ◌≤◌, length};
ghost use Rattle.words.specs.Soundness.{Sound};
ghost use Rattle.reed_solomon.specs.Finding.{Received, Guessed, Found, Replaced};

use crate::elements::MOST_SYMBOLS;
use crate::interpolation::through;
use crate::key_equation::KeyEquation;
use codes::checks::check_near;
use fields::field::Field;
use words::fault::{Fault, Kind, Layer};
use words::harms::harm;

/// A word to be corrected: the field of its symbols, the message length K of its code, and its marks.
#[derive(Drop)]
struct Damaged<'a, F> {
    field: &'a F,
    k: usize,
    word: &'a [u8],
    marks: &'a [u8],
}

impl<F: Field> Damaged<'_, F> {
    /// The distance of the code.
    fn distance(&self) -> usize
        requires { (1 ≤ self.now.k) × (self.now.k ≤ length self.now.word.now) }
        ensures { result ≡ length self.now.word.now - self.now.k + 1 }
    {
        let spare = self.word.len() - self.k;
        spare + 1
    }

    /// Puts the values through the first K places that are not skipped into `found`, and answers the word's harm against them.
    /// Refuses with 12 if there are fewer places, or if the harm is not below the distance.
    fn guess(&self, skip: &[u8], found: &mut [u8], product: &mut [u8]) -> Result<usize, Fault>
        requires { (Sound F.refusal self.now.field.now) × ((Received (F.model self.now.field.now) self.now.k self.now.word.now self.now.marks.now) × ((length skip.now ≡ length self.now.word.now) × (length found.old ≡ length self.now.word.now) × (length product.old ≡ length self.now.word.now))) }
        ensures { Guessed (F.model self.now.field.now) self.now.k self.now.word.now self.now.marks.now skip.now found.new product.new result }
    {
        let taken = through(self.field, self.k, self.word, skip, found, product);
        if taken < self.k {
            return Err(Fault::new(Kind::NoCodeword, Layer::Code, 0));
        }
        let near = harm(Layer::Code, self.word, self.marks, found)?;
        check_near(near, self.distance())?;
        Ok(near)
    }

    /// Puts the codeword at harm below the distance into `found` and answers its harm; refuses with 12 where there is none. A
    /// word with little damage agrees with the values through its first readable places; otherwise the key equation shows places
    /// that are right.
    fn find(&self, found: &mut [u8]) -> Result<usize, Fault>
        requires { (Sound F.refusal self.now.field.now) × ((Received (F.model self.now.field.now) self.now.k self.now.word.now self.now.marks.now) × ((length found.old ≡ length self.now.word.now) × (length self.now.word.now ≤ 256))) }
        ensures { Found (F.model self.now.field.now) self.now.k self.now.word.now self.now.marks.now found.new result }
    {
        let n = self.word.len();
        let mut room = [0; MOST_SYMBOLS];
        let product = &mut room[..n];
        if let Ok(near) = self.guess(self.marks, found, product) {
            return Ok(near);
        }
        let mut places = [0; MOST_SYMBOLS];
        let skip = &mut places[..n];
        let equation = KeyEquation {
            field: self.field,
            word: self.word,
            marks: self.marks,
            g: found,
            p: product,
        };
        equation.locate(skip);
        self.guess(skip, found, product)
    }
}

/// Puts the codeword at harm below the distance in place of a word and answers its harm; refuses with 12 where there is none.
pub(crate) fn replace<F: Field>(
    field: &F,
    k: usize,
    word: &mut [u8],
    marks: &[u8],
) -> Result<usize, Fault>
    requires { (Sound F.refusal field.now) × ((Received (F.model field.now) k word.old marks.now) × (length word.old ≤ 256)) }
    ensures { Replaced (F.model field.now) k word.old marks.now word.new result }
{
    let mut room = [0; MOST_SYMBOLS];
    let found = &mut room[..word.len()];
    let damaged = Damaged {
        field,
        k,
        word,
        marks,
    };
    let near = damaged.find(found)?;
    word.copy_from_slice(found);
    Ok(near)
}
