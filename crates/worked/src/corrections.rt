// The examples of the codes.
ghost use Rattle.std.specs.Prelude.{◌≡◌, [], ◌∷◌, Some, Ok, MatchResult};

use codes::code::Code;
use codes::repetition::Repetition;
use fields::polynomial::Polynomial;
use reed_solomon::code::ReedSolomon;
use words::fault::Fault;

/// The Reed-Solomon code of eight symbols for two over the polynomial field of width 3.
fn code_of_eight() -> Result<ReedSolomon<Polynomial>, Fault>
    ensures { MatchResult result (λ c. (c.field.width ≡ 3) × (c.len ≡ 8) × (c.message_len ≡ 2)) (λ _. ⊥) }
{
    let field = Polynomial::new(3)?;
    ReedSolomon::new(field, 8, 2)
}

/// The codeword of the message 0 1.
pub(crate) fn encoded() -> Result<[u8; 8], Fault>
    ensures { result ≡ Ok (0 ∷ 1 ∷ 2 ∷ 3 ∷ 4 ∷ 5 ∷ 6 ∷ 7 ∷ []) }
{
    let code = code_of_eight()?;
    let mut word = [0; 8];
    code.encode(&[0, 1], &mut word)?;
    Ok(word)
}

/// The word 0 1 2 3 0 0 0 7, corrected, and its harm.
pub(crate) fn mended() -> Result<([u8; 8], usize), Fault>
    ensures { result ≡ Ok (0 ∷ 1 ∷ 2 ∷ 3 ∷ 4 ∷ 5 ∷ 6 ∷ 7 ∷ [], 6) }
{
    let code = code_of_eight()?;
    let mut word = [0, 1, 2, 3, 0, 0, 0, 7];
    let harm = code.correct(&mut word, &[0; 8])?;
    Ok((word, harm))
}

/// The word 1 1 0 and a blank, corrected, and its harm.
#[tactic(auto, using(crate::proofs::Once::repeated_once))]
pub(crate) fn repeated() -> Result<([u8; 4], usize), Fault>
    ensures { result ≡ Ok (1 ∷ 1 ∷ 1 ∷ 1 ∷ [], 3) }
{
    let code = Repetition::new(1, 4)?;
    let mut word = [1, 1, 0, 0];
    let harm = code.correct(&mut word, &[0, 0, 0, 1])?;
    Ok((word, harm))
}

/// The number by which 1 1 0 0 is refused.
pub(crate) fn too_far_number() -> Result<Option<u8>, Fault>
    ensures { result ≡ Ok (Some 12) }
{
    let code = Repetition::new(1, 4)?;
    Ok(match code.correct(&mut [1, 1, 0, 0], &[0; 4]) {
        Ok(_) => None,
        Err(fault) => Some(fault.number()),
    })
}
