// Harm: how far a word lies from a codeword.
ghost use Rattle.std.specs.Prelude.{◌≡◌, ◌≤◌, length};
ghost use Rattle.words.specs.Buffers.{answered, refusal};
ghost use Rattle.words.specs.Harm.{harm_at, harm as harm_of, harm_buffers};

use crate::buffer::{Buffer, check_buffers};
use crate::fault::{Fault, Layer};
use crate::limits::MOST_CELLS;

/// The most places that a word has.
pub const MOST_PLACES: usize = MOST_CELLS;

/// The harm of a blank place (an erasure).
pub const BLANK: usize = 1;

/// The harm of a readable place that holds the wrong symbol (an error).
pub const WRONG: usize = 2;

fn harm_at(symbol: u8, mark: u8, sent: u8) -> usize
    ensures { result ≡ harm_at symbol mark sent }
{
    if mark != 0 {
        BLANK
    } else if symbol != sent {
        WRONG
    } else {
        0
    }
}

fn total_harm(word: &[u8], marks: &[u8], codeword: &[u8]) -> usize
    requires { (length word.now ≤ 4096) × ((length marks.now ≡ length word.now) × (length codeword.now ≡ length word.now)) }
    ensures { result ≡ harm_of word.now marks.now codeword.now }
{
    let mut total = 0;
    // The harm of a word is a loop over its elements, with index and marks: a rule of the project.
    for (i, symbol) in word.iter().enumerate() {
        total += harm_at(*symbol, marks[i], codeword[i]);
    }
    total
}

/// The harm of a word, beside its marks, against a codeword: twice the readable places where they differ plus
/// the blank places. Refuses for the layer that asks.
pub fn harm(layer: Layer, word: &[u8], marks: &[u8], codeword: &[u8]) -> Result<usize, Fault>
    ensures { result ≡ answered (refusal layer (harm_buffers word.now marks.now codeword.now)) (harm_of word.now marks.now codeword.now) }
{
    let places = word.len().min(MOST_PLACES);
    let buffers = [
        Buffer::new(word, places, 256),
        Buffer::new(marks, places, 2),
        Buffer::new(codeword, places, 256),
    ];
    check_buffers(layer, &buffers)?;
    Ok(total_harm(word, marks, codeword))
}
