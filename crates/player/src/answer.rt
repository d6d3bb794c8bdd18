// An answer or a refusal as C is told it: C has no Result.
ghost use Rattle.std.specs.Prelude.{◌≡◌, ◌<◌, ◌^◌, IfOk};
ghost use Rattle.player.specs.Answers.{told};

use words::fault::Fault;

/// The answer, or minus the refusal's number.
pub(crate) fn tell(answer: Result<usize, Fault>) -> i32
    requires { IfOk answer (λ n. n < 2 ^ 31) }
    ensures { result ≡ told answer }
{
    match answer {
        Ok(number) => number as i32,
        Err(fault) => -i32::from(fault.number()),
    }
}
