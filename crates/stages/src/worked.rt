// A worked example.
ghost use Rattle.std.specs.Prelude.{◌≡◌, [], ◌∷◌, Some, Ok};
ghost use Rattle.stage_laws.specs.Examples.{StageExample, one_and_zero};

use crate::choice::choose;
use chains::chain::Estimate;
use codes::repetition::Repetition;
use words::fault::Fault;

// The labels 1 and 0, with the harms 0 and 6.
fn example_estimates() -> [Option<Estimate>; 2]
    ensures { result ≡ one_and_zero 0 6 }
{
    [
        Some(Estimate { label: 1, harm: 0 }),
        Some(Estimate { label: 0, harm: 6 }),
    ]
}

/// Makes the choice of the worked example of the stage rule, which holds of the definitions.
pub fn example_choice(word: &mut [u8; 2]) -> Result<Option<usize>, Fault>
    ensures holds { StageExample }
    ensures answer { result ≡ Ok (Some 10) }
    ensures word { word.new ≡ 1 ∷ 1 ∷ [] }
{
    let code = Repetition::new(1, 2)?;
    choose(&code, 8, &example_estimates(), word)
}
