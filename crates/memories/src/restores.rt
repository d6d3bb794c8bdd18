// A page corrected to a codeword and its message.
// The room to work in is arrays, cut to length, since libraries use no heap.
ghost use Rattle.std.specs.Prelude.{◌≡◌, ◌<◌, replicate};
ghost use Rattle.media_laws.specs.Model.{Unchanged};
ghost use Rattle.memory_laws.specs.Calls.{Restored};
ghost use Rattle.memories.specs.Promises.{Done, Holds, Joined, Kept, Looks};

use crate::bits::check_spare;
use crate::memory::Memory;
use codes::code::Code;
use media::medium::Medium;
use words::fault::Fault;
use words::limits::MOST_CELLS;

impl<M: Medium, C: Code> Memory<'_, M, C> {
    // Fetches a page and corrects it to a codeword, whose message has no spare bit set.
    pub(crate) fn restore(
        &mut self,
        page: usize,
        message: &mut [u8],
        word: &mut [u8],
    ) -> Result<usize, Fault>
        requires joined { Joined M.Medium C.Code self.old }
        requires page { page < (M.Medium.model self.old.medium.now).pages }
        requires message { message.old ≡ replicate (C.Code.model self.old.code).message_len 0 }
        requires word { word.old ≡ replicate (C.Code.model self.old.code).len 0 }
        ensures done { Done M.Medium C.Code self.old self.new
            (λ m m' c. Unchanged m m' × Restored m c page message.new word.new result) }
        ensures kept { Kept M.Medium C.Code self.old self.new }
        ensures bytes { Holds M.Medium C.Code self.old self.new }
        ensures beside { Looks M.Medium C.Code self.old self.new page }
    {
        let mut marks = [0; MOST_CELLS];
        let marks = &mut marks[..word.len()];
        self.medium.fetch(page, word, marks)?;
        let harm = self.code.correct(word, marks)?;
        self.code.message_of(word, message)?;
        check_spare(message)?;
        Ok(harm)
    }
}
