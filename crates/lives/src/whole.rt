// What piles and memories promise, together on one call.
ghost use Rattle.std.specs.Prelude.{◌≡◌, length, OnErr, OnOk};
ghost use Rattle.words.specs.Buffers.{checked};
ghost use Rattle.words.specs.Soundness.{Refused, Sound};
ghost use Rattle.codes.specs.Model.{Lawful, OnlyOneNear};
ghost use Rattle.codes.specs.Promises.{AnsweredExactly, Corrected, OneCorrection};
ghost use Rattle.memory_laws.specs.Lives.{CorrectsEach};
ghost use Rattle.memories.specs.Promises.{Joined, Kept};
ghost use Rattle.piles.specs.Sound.{LieApart, pile_model, pile_refusal};
ghost use Rattle.lives.specs.Promises.{AlwaysBringsBack, Lives, OfEachLife, live_refusal};

use crate::call::{Answer, Call};
use crate::life::live;
use chains::chain::Chain;
use codes::code::{Code, correct_word};
use media::medium::Medium;
use memories::memory::Memory;
use piles::pile::Pile;
use words::fault::Fault;

/// What became of a word, and of the calls on a memory.
#[derive(Clone, Copy, PartialEq, Eq, Debug)]
pub struct Upheld {
    /// The harm of the word that was corrected, or why it was not.
    pub corrected: Result<usize, Fault>,
    /// Whether the calls were done.
    pub lived: Result<(), Fault>,
}

/// Corrects a word by a pile, and does calls on a memory over any medium and any code. All that piles and memories promise stands on
/// this call together; `Code::correct` and `live` do its two halves alone.
pub fn uphold<M: Medium, C: Code, H: Chain, A: Code>(
    pile: &Pile<H, A>,
    word: &mut [u8],
    marks: &[u8],
    memory: &mut Memory<'_, M, C>,
    calls: &[Call<'_>],
    answers: &mut [Answer],
    payloads: &mut [u8],
) -> Upheld
    // The codewords of different messages differ in at least as many cells as the reach, and a sound pile is a lawful code again.
    ensures apart { Sound (pile_refusal H.Chain A.Code) pile.now →
        LieApart (pile_model H.Chain A.Code pile.now) }
    ensures lawful { Sound (pile_refusal H.Chain A.Code) pile.now →
        Lawful (pile_model H.Chain A.Code pile.now) }

    // Whatever word and marks come: answered exactly where some codeword is nearer than the reach, with that one, the only one so near,
    // and its harm; each refusal with its place; and the word afterwards.
    ensures exactly { Sound (pile_refusal H.Chain A.Code) pile.now →
        AnsweredExactly (pile_model H.Chain A.Code pile.now) word.old marks.now result.corrected }
    ensures corrected { Sound (pile_refusal H.Chain A.Code) pile.now →
        Corrected (pile_model H.Chain A.Code pile.now)
        word.old marks.now word.new result.corrected }
    ensures only { Sound (pile_refusal H.Chain A.Code) pile.now →
        OnlyOneNear (pile_model H.Chain A.Code pile.now) word.old marks.now }
    ensures single { Sound (pile_refusal H.Chain A.Code) pile.now →
        OneCorrection (pile_model H.Chain A.Code pile.now) word.old marks.now }
    ensures unsound { Refused (pile_refusal H.Chain A.Code pile.now) result.corrected (word.new ≡ word.old) }

    // The law of lives: each call's answer and what it leaves in every buffer, page and byte, and at every state along the way that what
    // was written comes back while the harm stays below the reach.
    ensures answer { result.lived ≡ checked (live_refusal M.Medium C.Code memory.old
        (length calls.now) (length answers.old) (length payloads.old)) }
    ensures joined { OnOk result.lived (Joined M.Medium C.Code memory.old × Joined M.Medium C.Code memory.new) }
    ensures lived { OnOk result.lived (Lives M.Medium C.Code memory.old memory.new
        calls.now answers.new payloads.old payloads.new) }
    ensures corrects { Joined M.Medium C.Code memory.old →
        OfEachLife M.Medium C.Code memory.old memory.new (λ start life. CorrectsEach life) }
    ensures comes_back { Joined M.Medium C.Code memory.old →
        OfEachLife M.Medium C.Code memory.old memory.new (λ start life. AlwaysBringsBack life) }
    ensures stays { OnErr result.lived ((memory.new.medium.now ≡ memory.old.medium.now)
        × (answers.new ≡ answers.old) × (payloads.new ≡ payloads.old)) }
    ensures kept { Kept M.Medium C.Code memory.old memory.new }
{
    Upheld {
        corrected: correct_word(pile, word, marks),
        lived: live(memory, calls, answers, payloads),
    }
}
