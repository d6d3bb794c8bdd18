// A worked example.
ghost use Rattle.std.specs.Prelude.{◌≡◌};
ghost use Rattle.reed_solomon.specs.Examples.{ReedSolomonExample};

use words::harms::WRONG;

/// The harm of three wrong symbols.
fn harm_of_three() -> usize
    ensures { result ≡ 6 }
{
    3 * WRONG
}

/// The harm of the worked example, which holds of the definitions.
#[tactic(auto, using(crate::proofs::Examples::reed_solomon_example))]
pub fn example_harm() -> usize
    ensures holds { ReedSolomonExample }
    ensures harm { result ≡ 6 }
{
    harm_of_three()
}
