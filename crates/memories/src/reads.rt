// Reads of a page of a medium that the code fits.
// The room to work in is arrays, cut to length, since libraries use no heap.
ghost use Rattle.memory_laws.specs.Calls.{Recalled, paged, payload_refusal};
ghost use Rattle.memories.specs.Promises.{Done, Holds, Joined, Kept, LooksUnless};

use crate::bits::gather;
use crate::checks::check_call;
use crate::memory::Memory;
use codes::code::Code;
use media::medium::Medium;
use words::fault::Fault;
use words::limits::MOST_CELLS;

impl<M: Medium, C: Code> Memory<'_, M, C> {
    // Restores a page and fills the payload.
    pub(crate) fn recall(&mut self, page: usize, payload: &mut [u8]) -> Result<usize, Fault>
        requires { Joined M.Medium C.Code self.old }
        ensures done { Done M.Medium C.Code self.old self.new
            (λ m m' c. Recalled m m' c page payload.old payload.new (paged result page)) }
        ensures kept { Kept M.Medium C.Code self.old self.new }
        ensures bytes { Holds M.Medium C.Code self.old self.new }
        ensures beside { LooksUnless M.Medium C.Code self.old self.new page
            (payload_refusal (M.Medium.model self.old.medium.now) (C.Code.model self.old.code) page payload.old) }
    {
        let bits = self.code.message_len();
        let cells = self.code.len();
        check_call(page, self.medium.pages(), payload, bits / 8)?;
        let mut message = [0; MOST_CELLS];
        let mut word = [0; MOST_CELLS];
        let message = &mut message[..bits];
        let word = &mut word[..cells];
        let harm = self.restore(page, message, word)?;
        gather(message, payload);
        Ok(harm)
    }
}
