// A life of a memory: a list of calls, done one after another.
ghost use Rattle.std.specs.Prelude.{◌≡◌, length, OnErr, OnOk};
ghost use Rattle.words.specs.Buffers.{checked};
ghost use Rattle.memory_laws.specs.Lives.{CorrectsEach};
ghost use Rattle.memories.specs.Promises.{Joined, Kept};
ghost use Rattle.lives.specs.Promises.{AlwaysBringsBack, Lives, OfEachLife, live_refusal};

use crate::call::{Answer, Call};
use crate::calls::answer_calls;
use crate::rooms::check_rooms;
use codes::code::Code;
use media::medium::Medium;
use memories::memory::Memory;
use words::fault::Fault;

/// Does calls on a memory, whatever its medium and its code, one after another, and gives the answer of each.
///
/// `answers` has a place for each call, and `payloads` as many bytes for each as a page holds, which only a read fills. A memory whose
/// parts are not joined is refused as by its own check; then answers and payloads of another length are, in this order, with 10.
// Answers and payloads are lent beside the calls, place by place, since the library has no heap to put them in.
pub fn live<M: Medium, C: Code>(
    memory: &mut Memory<'_, M, C>,
    calls: &[Call<'_>],
    answers: &mut [Answer],
    payloads: &mut [u8],
) -> Result<(), Fault>
    ensures answer { result ≡ checked (live_refusal M.Medium C.Code memory.old
        (length calls.now) (length answers.old) (length payloads.old)) }
    ensures joined { OnOk result (Joined M.Medium C.Code memory.old × Joined M.Medium C.Code memory.new) }
    ensures lived { OnOk result (Lives M.Medium C.Code memory.old memory.new
        calls.now answers.new payloads.old payloads.new) }
    ensures corrects { Joined M.Medium C.Code memory.old →
        OfEachLife M.Medium C.Code memory.old memory.new (λ start life. CorrectsEach life) }
    ensures comes_back { Joined M.Medium C.Code memory.old →
        OfEachLife M.Medium C.Code memory.old memory.new (λ start life. AlwaysBringsBack life) }
    ensures stays { OnErr result ((memory.new.medium.now ≡ memory.old.medium.now)
        × (answers.new ≡ answers.old) × (payloads.new ≡ payloads.old)) }
    ensures kept { Kept M.Medium C.Code memory.old memory.new }
{
    memory.check_join()?;
    let bytes = memory.code.message_len() / 8;
    check_rooms(calls.len(), bytes, answers.len(), payloads.len())?;
    answer_calls(memory, calls, bytes, answers, payloads);
    Ok(())
}
