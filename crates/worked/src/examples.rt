// The worked examples.
ghost use Rattle.std.specs.Prelude.{◌≡◌, Ok};
ghost use Rattle.worked.specs.Answers.{worked};
ghost use Rattle.worked.specs.Examples.{WorkedExamples};

use crate::arithmetic::unlawful_number;
use crate::choices::{chosen, tied};
use crate::corrections::{encoded, mended, repeated, too_far_number};
use crate::readings::{midway, near, word_of_labels};
use chains::chain::Estimate;
use fields::worked::examples as products;
use words::fault::Fault;

/// What the worked examples answer.
#[derive(Clone, Copy, PartialEq, Eq, Debug)]
pub struct Worked {
    /// 2·5 at width 3, 2·0x8E at width 8, and 16·16 over width 4 with c = 8.
    pub products: [u8; 3],
    /// The number by which c = 1 is refused over width 4.
    pub unlawful: Option<u8>,
    /// The Reed-Solomon codeword of 0 1.
    pub codeword: [u8; 8],
    /// 0 1 2 3 0 0 0 7 as that code corrects it, and its harm.
    pub mended: ([u8; 8], usize),
    /// 1 1 0 and a blank as repetition corrects it, and its harm.
    pub repeated: ([u8; 4], usize),
    /// The number by which repetition refuses 1 1 0 0.
    pub too_far: Option<u8>,
    /// The Reed-Muller word of the labels 0 4 0 0.
    pub cells: [u8; 8],
    /// The estimate of 1 1 1 1 1 0 0 0 at stage 4 after zeros.
    pub near: Option<Estimate>,
    /// The estimate of 1 1 1 1 0 0 0 0 there.
    pub midway: Option<Estimate>,
    /// The choice of the labels 1 0 with the harms 0 6, and its score.
    pub chosen: ([u8; 2], Option<usize>),
    /// The word with the harms 6 6, which stays, and no score.
    pub tied: ([u8; 2], Option<usize>),
}

/// Runs the worked examples, which hold of the definitions. None is refused but where the rules say so.
#[tactic(auto, using(crate::proofs::Together::worked_examples))]
pub fn worked_examples() -> Result<Worked, Fault>
    ensures examples_hold { WorkedExamples }
    ensures answers { result ≡ Ok worked }
{
    Ok(Worked {
        products: products()?,
        unlawful: unlawful_number(),
        codeword: encoded()?,
        mended: mended()?,
        repeated: repeated()?,
        too_far: too_far_number()?,
        cells: word_of_labels()?,
        near: near()?,
        midway: midway()?,
        chosen: chosen()?,
        tied: tied()?,
    })
}
