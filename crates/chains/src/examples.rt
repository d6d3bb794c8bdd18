// Worked examples of the chains' meaning.
ghost use Rattle.std.specs.Prelude.{◌≡◌};
ghost use Rattle.chains.specs.Examples.{MullerExamples, near_estimate};

use crate::chain::Estimate;

fn examples_stand()
    ensures { MullerExamples }
{}

/// The estimate of a reading of five ones and three zeros at the last stage of the Reed-Muller chain of eight cells,
/// after zeros. It is one of three examples that are proved of the chain's meaning.
pub fn near_example() -> Estimate
    ensures answer { result ≡ near_estimate }
    ensures examples { MullerExamples }
{
    examples_stand();
    Estimate { label: 1, harm: 6 }
}
