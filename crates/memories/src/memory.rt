// A medium and a code as one.
// That the two are joined stands in each contract: such a fact may have several proofs, which a ghost field refuses.
ghost use Rattle.std.specs.Prelude.{◌≡◌, IfErr, MatchResult};
ghost use Rattle.words.specs.declared.fault.Kind.TheVariants.{NoCodeword, SpareBitSet};
ghost use Rattle.words.specs.Soundness.{Refused};
ghost use Rattle.media.specs.Promises.{page_refusal};
ghost use Rattle.memory_laws.specs.Calls.{Written, Recalled, Patrolled, WornPage, OnePatrol, OneRead, payload_refusal, recording};
ghost use Rattle.memories.specs.Promises.{call_refusal, Done, Holds, Joined, Kept, LooksAndPuts, LooksUnless, Puts, PutsAndLooks, PutsBack, Stays, Wears};

use codes::code::Code;
use media::medium::Medium;
use words::fault::Fault;

/// A code joined to a medium that it is lent.
#[derive(Drop)]
pub struct Memory<'m, M, C> {
    pub medium: &'m mut M,
    pub code: C,
}

impl<M: Medium, C: Code> Memory<'_, M, C> {
    /// Writes a payload to a page and answers how many of its cells are then blank.
    pub fn write(&mut self, page: usize, payload: &[u8]) -> Result<usize, Fault>
        ensures joined { Joined M.Medium C.Code self.old → Done M.Medium C.Code self.old self.new
            (λ m m' c. Written m m' c page payload.now result) }
        ensures refused { Refused (call_refusal M.Medium C.Code self.old page) result
            (self.new.medium.now ≡ self.old.medium.now) }
        ensures kept { Kept M.Medium C.Code self.old self.new }
        ensures bytes { MatchResult result
            (λ _. Puts M.Medium C.Code self.old self.new page (recording (C.Code.model self.old.code) payload.now))
            (λ _. Holds M.Medium C.Code self.old self.new) }
        ensures beside { MatchResult result (λ _. PutsAndLooks M.Medium C.Code self.old self.new page)
            (λ _. Stays M.Medium C.Code self.old self.new) }
    {
        self.check_join_on(page)?;
        self.record(page, payload)
            .map_err(|fault| fault.on_page(page))
    }

    /// Reads a page into a payload and answers its harm.
    pub fn read(&mut self, page: usize, payload: &mut [u8]) -> Result<usize, Fault>
        ensures joined { Joined M.Medium C.Code self.old → Done M.Medium C.Code self.old self.new
            (λ m m' c. Recalled m m' c page payload.old payload.new result) }
        ensures refused { Refused (call_refusal M.Medium C.Code self.old page) result
            ((self.new.medium.now ≡ self.old.medium.now) × (payload.new ≡ payload.old)) }
        ensures single { Joined M.Medium C.Code self.old
            → OneRead (M.Medium.model self.old.medium.now) (C.Code.model self.old.code) page payload.old }
        ensures kept { Kept M.Medium C.Code self.old self.new }
        ensures bytes { Holds M.Medium C.Code self.old self.new }
        ensures beside { Joined M.Medium C.Code self.old → LooksUnless M.Medium C.Code self.old self.new page
            (payload_refusal (M.Medium.model self.old.medium.now) (C.Code.model self.old.code) page payload.old) }
        ensures quiet { IfErr result (λ f. (f.kind ≡ NoCodeword → ⊥) → (f.kind ≡ SpareBitSet → ⊥)
            → Stays M.Medium C.Code self.old self.new) }
    {
        self.check_join_on(page)?;
        self.recall(page, payload)
            .map_err(|fault| fault.on_page(page))
    }

    /// Puts back the codeword that a page is corrected to and answers the harm.
    pub fn patrol(&mut self, page: usize) -> Result<usize, Fault>
        ensures joined { Joined M.Medium C.Code self.old → Done M.Medium C.Code self.old self.new
            (λ m m' c. Patrolled m m' c page result) }
        ensures refused { Refused (call_refusal M.Medium C.Code self.old page) result
            (self.new.medium.now ≡ self.old.medium.now) }
        ensures single { Joined M.Medium C.Code self.old
            → OnePatrol (M.Medium.model self.old.medium.now) (C.Code.model self.old.code) page }
        ensures kept { Kept M.Medium C.Code self.old self.new }
        ensures bytes { MatchResult result (λ _. PutsBack M.Medium C.Code self.old self.new page)
            (λ _. Holds M.Medium C.Code self.old self.new) }
        ensures beside { MatchResult result (λ _. LooksAndPuts M.Medium C.Code self.old self.new page)
            (λ _. Joined M.Medium C.Code self.old → LooksUnless M.Medium C.Code self.old self.new page
            (page_refusal (M.Medium.model self.old.medium.now) page)) }
        ensures quiet { IfErr result (λ f. (f.kind ≡ NoCodeword → ⊥) → (f.kind ≡ SpareBitSet → ⊥)
            → Stays M.Medium C.Code self.old self.new) }
    {
        self.check_join_on(page)?;
        self.mend(page).map_err(|fault| fault.on_page(page))
    }

    /// Sets one cell of a page to a state.
    pub fn wear(&mut self, page: usize, cell: usize, state: u8) -> Result<(), Fault>
        ensures joined { Joined M.Medium C.Code self.old → Done M.Medium C.Code self.old self.new
            (λ m m' _. WornPage m m' page cell state result) }
        ensures refused { Refused (call_refusal M.Medium C.Code self.old page) result
            (self.new.medium.now ≡ self.old.medium.now) }
        ensures kept { Kept M.Medium C.Code self.old self.new }
        ensures bytes { MatchResult result
            (λ _. Wears M.Medium C.Code self.old self.new page cell state)
            (λ _. Holds M.Medium C.Code self.old self.new) }
        ensures beside { Stays M.Medium C.Code self.old self.new }
    {
        self.check_join_on(page)?;
        self.medium
            .wear(page, cell, state)
            .map_err(|fault| fault.on_page(page))
    }
}
