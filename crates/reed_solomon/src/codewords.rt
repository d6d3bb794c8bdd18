// Writing the codeword of a message, and recognizing one.
// Work space is arrays of the most symbols that a word has, since the library has no heap.
ghost use Rattle.std.specs.Prelude.{◌≡◌, ◌≤◌, length};
ghost use Rattle.words.specs.Soundness.{Sound};
ghost use Rattle.reed_solomon_laws.specs.Words.{reed_solomon};
ghost use Rattle.reed_solomon.specs.Finding.{MessageOfKind, Recognized};

use crate::elements::MOST_SYMBOLS;
use crate::interpolation::through;
use fields::field::Field;
use words::fault::{Fault, Kind, Layer};

/// Writes the codeword that begins with a message.
pub(crate) fn write_codeword<F: Field>(field: &F, message: &[u8], word: &mut [u8])
    requires { (Sound F.refusal field.now) × ((MessageOfKind (F.model field.now) (length word.old) message.now) × (length word.old ≤ 256)) }
    ensures { word.new ≡ (reed_solomon (F.model field.now) (length word.old) (length message.now)).codeword message.now }
{
    let skip = [0; MOST_SYMBOLS];
    let mut room = [0; MOST_SYMBOLS];
    let product = &mut room[..word.len()];
    through(field, message.len(), message, &skip, word, product);
}

/// Ok if a word is the codeword of a message; else 12.
pub(crate) fn recognize<F: Field>(field: &F, message: &[u8], word: &[u8]) -> Result<(), Fault>
    requires { (Sound F.refusal field.now) × ((MessageOfKind (F.model field.now) (length word.now) message.now) × (length word.now ≤ 256)) }
    ensures { Recognized (F.model field.now) message.now word.now result }
{
    let mut room = [0; MOST_SYMBOLS];
    let codeword = &mut room[..word.len()];
    write_codeword(field, message, codeword);
    if *word != *codeword {
        return Err(Fault::new(Kind::NoCodeword, Layer::Code, 0));
    }
    Ok(())
}
