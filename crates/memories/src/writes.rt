// Writes to a page of a medium that the code fits.
// The room to work in is arrays, cut to length, since libraries use no heap.
ghost use Rattle.std.specs.Prelude.{MatchResult};
ghost use Rattle.memory_laws.specs.Calls.{Written, paged, recording};
ghost use Rattle.memories.specs.Promises.{Done, Holds, Joined, Kept, Puts, PutsAndLooks, Stays};

use crate::bits::{count_marks, spread};
use crate::checks::check_call;
use crate::memory::Memory;
use codes::code::Code;
use media::medium::Medium;
use words::fault::Fault;
use words::limits::MOST_CELLS;

impl<M: Medium, C: Code> Memory<'_, M, C> {
    // Encodes a payload, puts the codeword, and counts the cells that are then blank.
    pub(crate) fn record(&mut self, page: usize, payload: &[u8]) -> Result<usize, Fault>
        requires { Joined M.Medium C.Code self.old }
        ensures done { Done M.Medium C.Code self.old self.new
            (λ m m' c. Written m m' c page payload.now (paged result page)) }
        ensures kept { Kept M.Medium C.Code self.old self.new }
        ensures bytes { MatchResult result
            (λ _. Puts M.Medium C.Code self.old self.new page (recording (C.Code.model self.old.code) payload.now))
            (λ _. Holds M.Medium C.Code self.old self.new) }
        ensures beside { MatchResult result (λ _. PutsAndLooks M.Medium C.Code self.old self.new page)
            (λ _. Stays M.Medium C.Code self.old self.new) }
    {
        let bits = self.code.message_len();
        let cells = self.code.len();
        check_call(page, self.medium.pages(), payload, bits / 8)?;
        let mut message = [0; MOST_CELLS];
        let mut word = [0; MOST_CELLS];
        let mut marks = [0; MOST_CELLS];
        let message = &mut message[..bits];
        let word = &mut word[..cells];
        let marks = &mut marks[..cells];
        spread(payload, message);
        self.code.encode(message, word)?;
        self.medium.put(page, word)?;
        self.medium.fetch(page, word, marks)?;
        Ok(count_marks(marks))
    }
}
