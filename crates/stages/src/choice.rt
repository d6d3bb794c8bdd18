// A stage's choice.
ghost use Rattle.std.specs.Prelude.{◌≡◌, None};
ghost use Rattle.words.specs.Soundness.{Refused, Sound};
ghost use Rattle.stage_laws.specs.Rule.{OneChoice};
ghost use Rattle.stage_laws.specs.Promises.{Chose, choose_refusal};

use crate::columns::Columns;
use chains::chain::Estimate;
use codes::code::Code;
use words::fault::Fault;
use words::limits::MOST_CELLS;

// The choice of a sound code.
fn choose_soundly<C: Code>(
    code: &C,
    columns: Columns<'_>,
    word: &mut [u8],
) -> Result<Option<usize>, Fault>
    requires { Sound C.Code.refusal code.now }
    ensures { Chose (C.Code.model code.now) columns.entry.inner columns.entry.estimates.now word.old word.new result }
{
    let len = code.len();
    columns.check(1 << code.width(), len, word)?;
    let mut room = [0; MOST_CELLS];
    let mut marks = [0; MOST_CELLS];
    let Some(accepted) = columns.search(code, &mut room[..len], &mut marks[..len]) else {
        return Ok(None);
    };
    word.copy_from_slice(accepted.candidate);
    Ok(Some(accepted.score))
}

/// Puts the codeword that the estimates of a stage's columns decide for into the word and answers its score, or leaves
/// the word and answers `None` where there is none. At most one codeword scores below the inner times the outer distance.
pub fn choose<C: Code>(
    code: &C,
    inner: u8,
    estimates: &[Option<Estimate>],
    word: &mut [u8],
) -> Result<Option<usize>, Fault>
    ensures sound { Sound C.Code.refusal code.now → Chose (C.Code.model code.now) inner estimates.now word.old word.new result }
    ensures refused { Refused (C.Code.refusal code.now) result (word.new ≡ word.old) }
    ensures only { Sound C.Code.refusal code.now → choose_refusal (C.Code.model code.now) inner estimates.now word.old ≡ None → OneChoice (C.Code.model code.now) inner estimates.now }
{
    code.check()?;
    choose_soundly(code, Columns { inner, estimates }, word)
}
