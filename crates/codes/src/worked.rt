// A worked example.
ghost use Rattle.std.specs.Prelude.{◌≡◌};
ghost use Rattle.codes.specs.Examples.{RepetitionExample};

/// The harm of the worked example of repetition, which holds of the definitions.
pub fn example_harm() -> usize
    ensures holds { RepetitionExample }
    ensures harm { result ≡ 3 }
{
    3
}
