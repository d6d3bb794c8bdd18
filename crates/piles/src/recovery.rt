// The message of a pile by the codewords of its stages: each stage's message, and the bits that spell it.
ghost use Rattle.std.specs.Prelude.{◌≡◌, ℕ, ◌*◌, ◌<◌, ◌≤◌, List, map, length, MatchResult};
ghost use Rattle.std.specs.List.{AllByRecursion};
ghost use Rattle.words.specs.Soundness.{Sound};
ghost use Rattle.codes.specs.Model.{Message};
ghost use Rattle.pile_laws.specs.Build.{encoded, joined_bits, spelled_out, stage_bits, total_bits};
ghost use Rattle.pile_laws.specs.Fit.{EachLong};
ghost use Rattle.pile_laws.specs.Flat.{words_in};
ghost use Rattle.pile_laws.proofs.Messages.{EachMessage};
ghost use Rattle.pile_laws.proofs.Outcomes.{EncodedAt};

use crate::numbers::bits_of;
use codes::code::Code;
use words::bits::write_bits;
use words::fault::Fault;
use words::limits::MOST_CELLS;

/// Writes the bits that spell symbols of a width.
fn spell_out(symbols: &[u8], width: usize, bits: &mut [u8])
    requires { (width ≤ 8) × (length bits.old ≡ length symbols.now * width) }
    ensures { bits.new ≡ spelled_out width symbols.now }
{
    // By index: of what `chunks_mut` lends, a proof knows nothing afterwards.
    for (i, symbol) in symbols.iter().enumerate() {
        let start = i * width;
        write_bits(u16::from(*symbol), &mut bits[start..start + width]);
    }
}

/// The bits of the message of a stage, which is given by its codeword.
fn recover_stage<A: Code>(code: &A, word: &[u8], bits: &mut [u8]) -> Result<(), Fault>
    requires { (Sound A.Code.refusal code.now) × ((((u : List ℕ) × Message (A.Code.model code.now) u × ((A.Code.model code.now).codeword u ≡ word.now))) × (length bits.old ≡ stage_bits (A.Code.model code.now))) }
    ensures { MatchResult result (λ _. (u : List ℕ) × Message (A.Code.model code.now) u × ((A.Code.model code.now).codeword u ≡ word.now) × (bits.new ≡ spelled_out (A.Code.model code.now).width u)) (λ _. ⊥) }
{
    let mut room = [0; MOST_CELLS];
    let symbols = &mut room[..code.message_len()];
    code.message_of(word, symbols)?;
    spell_out(symbols, code.width(), bits);
    Ok(())
}

/// The bits of the stages' messages one behind the other; the stages' codewords lie one behind the other too.
pub(crate) fn recover_stages<A: Code>(
    codes: &[A],
    columns: usize,
    words: &[u8],
    bits: &mut [u8],
) -> Result<(), Fault>
    requires codes { (AllByRecursion (Sound A.Code.refusal) codes.now) × ((length codes.now ≤ 5) × (EachLong columns (map A.Code.model codes.now))) }
    requires words { (columns * length codes.now ≤ length words.now) × (((k : ℕ) → k < length codes.now → EncodedAt (map A.Code.model codes.now) (words_in columns (length codes.now) words.now) k)) }
    requires room { length bits.old ≡ total_bits (map A.Code.model codes.now) }
    ensures { MatchResult result (λ _. (us : List (List ℕ)) × EachMessage (map A.Code.model codes.now) us × (encoded (map A.Code.model codes.now) us ≡ words_in columns (length codes.now) words.now) × (bits.new ≡ joined_bits (map A.Code.model codes.now) us)) (λ _. ⊥) }
{
    let mut at = 0;
    // By index: of what `chunks_mut` lends, a proof knows nothing afterwards.
    for (k, code) in codes.iter().enumerate() {
        let count = bits_of(code);
        let start = columns * k;
        recover_stage(
            code,
            &words[start..start + columns],
            &mut bits[at..at + count],
        )?;
        at += count;
    }
    Ok(())
}
