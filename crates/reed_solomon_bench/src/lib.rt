// What the benchmark in bench/reed_solomon calls from C: the code of N = the word's length over the polynomial field of width 8.
#![tactic(auto)]

use codes::code::Code;
use fields::polynomial::Polynomial;
use reed_solomon::code::ReedSolomon;
use words::fault::Fault;

fn code_of(len: usize, message_len: usize) -> Result<ReedSolomon<Polynomial>, Fault> {
    let field = Polynomial::new(8)?;
    ReedSolomon::new(field, len, message_len)
}

fn encode(message: &[u8], word: &mut [u8]) -> Result<(), Fault> {
    let code = code_of(word.len(), message.len())?;
    code.encode(message, word)
}

fn correct(word: &mut [u8], marks: &[u8], message_len: usize) -> Result<usize, Fault> {
    let code = code_of(word.len(), message_len)?;
    code.correct(word, marks)
}

// C has no Option and no Result: a refusal is `false` or a number.

#[unsafe(no_mangle)]
pub extern "C" fn reed_solomon_encode(message: &[u8], word: &mut [u8]) -> bool {
    encode(message, word).is_ok()
}

/// The harm, or 10,000 for a refusal: C has no Option, and no word of 255 symbols has so much harm.
#[unsafe(no_mangle)]
pub extern "C" fn reed_solomon_correct(word: &mut [u8], marks: &[u8], message_len: usize) -> usize {
    correct(word, marks, message_len).unwrap_or(10000)
}
