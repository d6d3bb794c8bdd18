// The examples of a stage of inner distance 8 over two columns.
ghost use Rattle.std.specs.Prelude.{◌≡◌, [], ◌∷◌, Some, None, Ok};

use chains::chain::Estimate;
use codes::repetition::Repetition;
use stages::choice::choose;
use stages::worked::example_choice;
use words::fault::Fault;

/// The choice of the labels 1 0 with the harms 0 6, and its score.
pub(crate) fn chosen() -> Result<([u8; 2], Option<usize>), Fault>
    ensures { result ≡ Ok (1 ∷ 1 ∷ [], Some 10) }
{
    let mut word = [0; 2];
    let score = example_choice(&mut word)?;
    Ok((word, score))
}

/// The same labels with the harms 6 6: the word stays, and there is no score.
pub(crate) fn tied() -> Result<([u8; 2], Option<usize>), Fault>
    ensures { result ≡ Ok (0 ∷ 0 ∷ [], None) }
{
    let code = Repetition::new(1, 2)?;
    let estimates = [
        Some(Estimate { label: 1, harm: 6 }),
        Some(Estimate { label: 0, harm: 6 }),
    ];
    let mut word = [0; 2];
    let score = choose(&code, 8, &estimates, &mut word)?;
    Ok((word, score))
}
