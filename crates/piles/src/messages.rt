// The bits of a pile's message as the symbols of its stages' messages, most significant bit first.
ghost use Rattle.std.specs.Prelude.{◌≡◌, ◌*◌, ◌<◌, ◌≤◌, map, length, MatchResult};
ghost use Rattle.std.specs.List.{AllByRecursion};
ghost use Rattle.words.specs.Soundness.{Sound};
ghost use Rattle.pile_laws.specs.Build.{stage_bits, stage_words, symbols as symbols_of, total_bits};
ghost use Rattle.pile_laws.specs.Fit.{EachLong};
ghost use Rattle.pile_laws.specs.Flat.{words_in};

use crate::numbers::bits_of;
use codes::code::Code;
use words::bits::spell;
use words::fault::Fault;
use words::limits::MOST_CELLS;

/// Reads symbols of a width off the bits that spell them.
fn read_symbols(bits: &[u8], width: usize, symbols: &mut [u8])
    requires { (width ≤ 8) × ((length bits.now ≡ length symbols.old * width) × (AllByRecursion (λ b. b < 2) bits.now)) }
    ensures { symbols.new ≡ symbols_of width (length symbols.old) bits.now }
{
    // By index: of what a zip of `iter_mut` wrote, a proof knows nothing afterwards.
    for (i, symbol) in symbols.iter_mut().enumerate() {
        let start = i * width;
        *symbol = spell(&bits[start..start + width]) as u8;
    }
}

/// The codeword of a stage's message, which is given by its bits.
fn encode_stage<A: Code>(code: &A, bits: &[u8], word: &mut [u8]) -> Result<(), Fault>
    requires { (Sound A.Code.refusal code.now) × ((length bits.now ≡ stage_bits (A.Code.model code.now)) × ((AllByRecursion (λ b. b < 2) bits.now) × (length word.old ≡ (A.Code.model code.now).len))) }
    ensures { MatchResult result (λ _. word.new ≡ (A.Code.model code.now).codeword (symbols_of (A.Code.model code.now).width (A.Code.model code.now).message_len bits.now)) (λ _. ⊥) }
{
    let mut room = [0; MOST_CELLS];
    let symbols = &mut room[..code.message_len()];
    read_symbols(bits, code.width(), symbols);
    code.encode(symbols, word)
}

/// Encodes the stages' messages one behind the other; their bits lie one behind the other too.
pub(crate) fn encode_stages<A: Code>(
    codes: &[A],
    message: &[u8],
    columns: usize,
    words: &mut [u8],
) -> Result<(), Fault>
    requires codes { (AllByRecursion (Sound A.Code.refusal) codes.now) × ((length codes.now ≤ 5) × (EachLong columns (map A.Code.model codes.now))) }
    requires message { (length message.now ≡ total_bits (map A.Code.model codes.now)) × (AllByRecursion (λ b. b < 2) message.now) }
    requires room { columns * length codes.now ≤ length words.old }
    ensures { MatchResult result (λ _. words_in columns (length codes.now) words.new ≡ stage_words (map A.Code.model codes.now) message.now) (λ _. ⊥) }
{
    let mut at = 0;
    // By index: of what `chunks_mut` lends, a proof knows nothing afterwards.
    for (k, code) in codes.iter().enumerate() {
        let bits = bits_of(code);
        let start = columns * k;
        encode_stage(
            code,
            &message[at..at + bits],
            &mut words[start..start + columns],
        )?;
        at += bits;
    }
    Ok(())
}
