// The calls of a list on a memory whose parts are joined.
ghost use Rattle.std.specs.Prelude.{◌≡◌, ◌*◌, length};
ghost use Rattle.memory_laws.specs.Payload.{page_bytes};
ghost use Rattle.memories.specs.Promises.{Done, Joined, Kept};
ghost use Rattle.lives.specs.Promises.{Lives};
ghost use Rattle.lives.specs.Runs.{Answered, LeavesBeside, LeavesBytes};

use crate::call::{Answer, Call};
use codes::code::Code;
use media::medium::Medium;
use memories::memory::Memory;

/// One call, which fills the room only where it reads.
fn answer_call<M: Medium, C: Code>(
    memory: &mut Memory<'_, M, C>,
    call: &Call<'_>,
    room: &mut [u8],
) -> Answer
    requires { Joined M.Medium C.Code memory.old }
    ensures done { Done M.Medium C.Code memory.old memory.new
        (Answered call.now result room.old room.new) }
    ensures bytes { LeavesBytes M.Medium (C.Code.model memory.old.code)
        memory.old.medium.now memory.new.medium.now call.now result }
    ensures beside { LeavesBeside M.Medium (C.Code.model memory.old.code)
        memory.old.medium.now memory.new.medium.now call.now result room.old }
    ensures kept { Kept M.Medium C.Code memory.old memory.new }
{
    match *call {
        Call::Write { page, payload } => memory.write(page, payload),
        Call::Read { page } => memory.read(page, room),
        Call::Patrol { page } => memory.patrol(page),
        Call::Wear { page, cell, state } => {
            memory.wear(page, cell, state)?;
            Ok(0)
        }
    }
}

/// The calls one after another, each with its place for an answer and its part of the room.
pub(crate) fn answer_calls<M: Medium, C: Code>(
    memory: &mut Memory<'_, M, C>,
    calls: &[Call<'_>],
    bytes: usize,
    answers: &mut [Answer],
    room: &mut [u8],
)
    requires joined { Joined M.Medium C.Code memory.old }
    requires bytes { bytes ≡ page_bytes (C.Code.model memory.old.code).message_len }
    requires answers { length answers.old ≡ length calls.now }
    requires room { length room.old ≡ bytes * length calls.now }
    ensures lived { Lives M.Medium C.Code memory.old memory.new calls.now answers.new room.old room.new }
    ensures joined { Joined M.Medium C.Code memory.new }
    ensures kept { Kept M.Medium C.Code memory.old memory.new }
{
    // By index: of what `chunks_mut` lends, a proof knows nothing afterwards.
    for (i, call) in calls.iter().enumerate() {
        let start = bytes * i;
        answers[i] = answer_call(memory, call, &mut room[start..start + bytes]);
    }
}
