// Patrols of a page of a medium that the code fits.
// The room to work in is arrays, cut to length, since libraries use no heap.
ghost use Rattle.std.specs.Prelude.{MatchResult};
ghost use Rattle.media.specs.Promises.{page_refusal};
ghost use Rattle.memory_laws.specs.Calls.{Patrolled, paged};
ghost use Rattle.memories.specs.Promises.{Done, Holds, Joined, Kept, LooksAndPuts, LooksUnless, PutsBack};

use crate::memory::Memory;
use codes::code::Code;
use media::checks::check_page;
use media::medium::Medium;
use words::fault::Fault;
use words::limits::MOST_CELLS;

impl<M: Medium, C: Code> Memory<'_, M, C> {
    // Restores a page and puts the codeword back.
    pub(crate) fn mend(&mut self, page: usize) -> Result<usize, Fault>
        requires { Joined M.Medium C.Code self.old }
        ensures done { Done M.Medium C.Code self.old self.new
            (λ m m' c. Patrolled m m' c page (paged result page)) }
        ensures kept { Kept M.Medium C.Code self.old self.new }
        ensures bytes { MatchResult result (λ _. PutsBack M.Medium C.Code self.old self.new page)
            (λ _. Holds M.Medium C.Code self.old self.new) }
        ensures beside { MatchResult result (λ _. LooksAndPuts M.Medium C.Code self.old self.new page)
            (λ _. LooksUnless M.Medium C.Code self.old self.new page
            (page_refusal (M.Medium.model self.old.medium.now) page)) }
    {
        let bits = self.code.message_len();
        let cells = self.code.len();
        check_page(page, self.medium.pages())?;
        let mut message = [0; MOST_CELLS];
        let mut word = [0; MOST_CELLS];
        let message = &mut message[..bits];
        let word = &mut word[..cells];
        let harm = self.restore(page, message, word)?;
        self.medium.put(page, word)?;
        Ok(harm)
    }
}
