// What every medium offers.
ghost use Rattle.std.specs.Prelude.{◌≡◌, ℕ, List, MatchResult, Option};
ghost use Rattle.words.specs.declared.fault.Fault.{Fault};
ghost use Rattle.words.specs.Buffers.{checked};
ghost use Rattle.words.specs.Soundness.{Refused, Sound};
ghost use Rattle.media_laws.specs.Model.{MediumModel, LawfulMedium, Unchanged};
ghost use Rattle.media.specs.Promises.{Fetched, Put, Worn};

use words::fault::Fault;

/// Pages of cells, each 0, 1 or blank.
///
/// A medium whose numbers and bytes do not fit is not sound: `check` refuses it, and so does each of its calls, by the
/// same fault and changing nothing. A medium may stand over another one, which is then a layer of it.
pub trait Medium {
    ghost model: { Self → MediumModel };

    // the fault that the check and each call of a medium give whose parts do not fit; none of a sound medium
    ghost refusal: { Self → Option Fault };

    // the names of what it and the layers below are lent, outermost first, which every call gives back
    ghost lenders: { Self → List ℕ };

    // the steps in which its layers order a page's cells, outermost first
    ghost order: { Self → List ℕ };

    // what the medium holds, byte for byte
    ghost held: { Self → List ℕ };

    // what is held before and after cells are put to a page of so many
    ghost puts: { (steps : List ℕ) → (breadth : ℕ) → (before after : List ℕ)
        → (page : ℕ) → (cells : List ℕ) → Type 0 };

    // what is held before and after one cell of such a page is worn to a state
    ghost wears: { (steps : List ℕ) → (breadth : ℕ) → (before after : List ℕ)
        → (page cell state : ℕ) → Type 0 };

    // what each layer keeps beside the cells, as registers, outermost first
    ghost beside: { Self → List (List ℕ) };

    // what is kept there once a page is fetched
    ghost after_fetch: { (page : ℕ) → List (List ℕ) → List (List ℕ) };

    // what is kept there once cells are put to a page
    ghost after_put: { (page : ℕ) → List (List ℕ) → List (List ℕ) };

    /// Answers exactly where the medium is sound.
    fn check(&self) -> Result<(), Fault>
        ensures { result ≡ checked (refusal self.now) };

    // Of a medium that is not sound these two answer any number: its parts may be of any kind.

    /// P, the number of pages.
    fn pages(&self) -> usize
        ensures { Sound refusal self.now → result ≡ (model self.now).pages };

    /// C, the number of a page's cells.
    fn breadth(&self) -> usize
        ensures { Sound refusal self.now → result ≡ (model self.now).breadth };

    /// Gives a page's cells and marks; a blank cell is 0 with the mark 1.
    // Cells and marks are two buffers, as the rules have them.
    fn fetch(&mut self, page: usize, cells: &mut [u8], marks: &mut [u8]) -> Result<(), Fault>
        ensures sound { Sound refusal self.old → Sound refusal self.new
            × Fetched (model self.old) (model self.new) page cells.old marks.old cells.new marks.new result }
        ensures refused { Refused (refusal self.old) result
            (Unchanged (model self.old) (model self.new) × (cells.new ≡ cells.old) × (marks.new ≡ marks.old)) }
        ensures lenders { lenders self.new ≡ lenders self.old }
        ensures order { order self.new ≡ order self.old }
        ensures bytes { held self.new ≡ held self.old }
        ensures beside { MatchResult result (λ _. beside self.new ≡ after_fetch page (beside self.old))
            (λ _. beside self.new ≡ beside self.old) };

    /// Writes a page's cells; blank cells stay blank.
    fn put(&mut self, page: usize, cells: &[u8]) -> Result<(), Fault>
        ensures sound { Sound refusal self.old → Sound refusal self.new
            × Put (model self.old) (model self.new) page cells.now result }
        ensures refused { Refused (refusal self.old) result (Unchanged (model self.old) (model self.new)) }
        ensures lenders { lenders self.new ≡ lenders self.old }
        ensures order { order self.new ≡ order self.old }
        ensures bytes { MatchResult result
            (λ _. puts (order self.old) (model self.old).breadth (held self.old) (held self.new) page cells.now)
            (λ _. held self.new ≡ held self.old) }
        ensures beside { MatchResult result (λ _. beside self.new ≡ after_put page (beside self.old))
            (λ _. beside self.new ≡ beside self.old) };

    /// Sets one cell to a state: 0, 1, or 2 for blank.
    // A number and no enum, since a call may name a state that there is not, and is then refused by 18.
    fn wear(&mut self, page: usize, cell: usize, state: u8) -> Result<(), Fault>
        ensures sound { Sound refusal self.old → Sound refusal self.new
            × Worn (model self.old) (model self.new) page cell state result }
        ensures refused { Refused (refusal self.old) result (Unchanged (model self.old) (model self.new)) }
        ensures lenders { lenders self.new ≡ lenders self.old }
        ensures order { order self.new ≡ order self.old }
        ensures bytes { MatchResult result
            (λ _. wears (order self.old) (model self.old).breadth (held self.old) (held self.new) page cell state)
            (λ _. held self.new ≡ held self.old) }
        ensures beside { beside self.new ≡ beside self.old };

    ghost lawful: { (m : Self) → Sound refusal m → LawfulMedium (model m) };

    // a put leaves one row of bytes
    ghost one_put: { (steps : List ℕ) (breadth : ℕ) (before after other : List ℕ) (page : ℕ) (cells : List ℕ)
        → puts steps breadth before after page cells → puts steps breadth before other page cells
        → other ≡ after };

    // and so does a cell that is worn
    ghost one_worn: { (steps : List ℕ) (breadth : ℕ) (before after other : List ℕ) (page cell state : ℕ)
        → wears steps breadth before after page cell state → wears steps breadth before other page cell state
        → other ≡ after };
}
