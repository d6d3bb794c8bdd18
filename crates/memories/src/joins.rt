// Whether a code fits a medium.
ghost use Rattle.std.specs.Prelude.{◌≡◌, MatchResult};
ghost use Rattle.words.specs.Buffers.{checked};
ghost use Rattle.words.specs.Soundness.{Sound};
ghost use Rattle.memory_laws.specs.Calls.{unfit};
ghost use Rattle.memories.specs.Promises.{call_refusal, join_refusal, parts_refusal, Joined};

use crate::memory::Memory;
use codes::code::Code;
use media::medium::Medium;
use words::fault::{Fault, Kind, Layer};

impl<M: Medium, C: Code> Memory<'_, M, C> {
    // Refuses a medium or a code that is not sound.
    fn check_parts(&self) -> Result<(), Fault>
        ensures { result ≡ checked (parts_refusal M.Medium C.Code self.now) }
    {
        self.medium.check()?;
        self.code.check()
    }

    // Refuses a code whose width is not 1, whose length is not a page's, or that carries no byte.
    fn check_fit(&self) -> Result<(), Fault>
        requires medium { Sound M.Medium.refusal self.now.medium.now }
        requires code { Sound C.Code.refusal self.now.code }
        ensures { result ≡ checked (unfit (M.Medium.model self.now.medium.now) (C.Code.model self.now.code)) }
    {
        if self.code.width() == 1
            && self.code.len() == self.medium.breadth()
            && self.code.message_len() >= 8
        {
            Ok(())
        } else {
            Err(Fault::new(Kind::UnfitMemory, Layer::Memory, 0))
        }
    }

    /// Refuses parts that are not sound, and a code that does not fit its medium.
    pub fn check_join(&self) -> Result<(), Fault>
        ensures refusal { result ≡ checked (join_refusal M.Medium C.Code self.now) }
        ensures joined { MatchResult result (λ _. Joined M.Medium C.Code self.now)
            (λ _. Joined M.Medium C.Code self.now → ⊥) }
    {
        self.check_parts()?;
        self.check_fit()
    }

    // The same for a call on a page, which the fault names; that the two do not fit each other is of no page.
    pub(crate) fn check_join_on(&self, page: usize) -> Result<(), Fault>
        ensures refusal { result ≡ checked (call_refusal M.Medium C.Code self.now page) }
        ensures joined { MatchResult result (λ _. Joined M.Medium C.Code self.now)
            (λ _. Joined M.Medium C.Code self.now → ⊥) }
    {
        self.check_parts().map_err(|fault| fault.on_page(page))?;
        self.check_fit()
    }
}
