// The pages of a packed image, under the code of a recipe.

use crate::cells::breadth_of;
use crate::failure::Failure;
use crate::inspection::Inspection;
use codes::code::Code;
use lives::call::{Answer, Call};
use lives::life::live;
use lives::whole::uphold;
use media::medium::Medium;
use media::packed::Packed;
use memories::memory::Memory;
use recipe_piles::making::pile_of;
use recipe_piles::parts::RecipePile;
use recipes::recipe::Recipe;
use std::alloc::Global;
use words::fault::{Fault, Kind, Layer};
use words::limits::MOST_PAGES;

/// The bytes of an image, how they lie, and the pile that its pages are under.
#[derive(Drop)]
pub(crate) struct Image {
    bytes: Vec<u8>,
    recipe: Recipe,
    pile: RecipePile,
    heap: Global,
}

/// The answer of each call, and for each as many bytes as a page holds, which a read fills.
#[derive(Drop)]
pub(crate) struct Outcome {
    pub(crate) answers: Vec<Answer>,
    pub(crate) payloads: Vec<u8>,
}

// The bytes of a page of so many cells: a row of values and a row of marks, each in whole bytes. The layout of media once more, whose own
// count is private and asks for at most 4,096 cells: here a number is wanted for any.
fn page_bytes(cells: usize) -> usize {
    cells.div_ceil(8).saturating_mul(2)
}

impl Image {
    /// The image that bytes hold. Where they are no whole pages, each action is refused.
    pub(crate) fn open(heap: Global, recipe: &Recipe, bytes: Vec<u8>) -> Result<Self, Failure> {
        Ok(Image {
            bytes,
            recipe: *recipe,
            pile: pile_of(recipe)?,
            heap,
        })
    }

    /// Begins anew with so many pages, each cell 0 and none blank. What no call would take afterwards is refused.
    pub(crate) fn renew(&mut self, pages: usize) -> Result<(), Failure> {
        let len = page_bytes(self.recipe.cells()).saturating_mul(pages);
        if !(1..=MOST_PAGES).contains(&pages) {
            return Err(Failure::from(Fault::new(Kind::UnfitMedium, Layer::Medium, len)));
        }
        self.bytes = vec![in self.heap; 0; len]?;
        self.check()
    }

    /// Refuses an image that no call would take.
    pub(crate) fn check(&mut self) -> Result<(), Failure> {
        let pile = self.pile;
        let mut medium = self.medium();
        let memory = Memory {
            medium: &mut medium,
            code: pile,
        };
        Ok(memory.check_join()?)
    }

    /// Refuses so many pages from one on where there are fewer, as a call would refuse the first that there is not.
    pub(crate) fn check_pages(&self, page: usize, count: usize) -> Result<(), Fault> {
        let pages = self.pages();
        if count <= pages.saturating_sub(page) {
            return Ok(());
        }
        let missing = page.max(pages);
        Err(Fault::new(Kind::PageOutOfRange, Layer::Medium, missing).on_page(missing))
    }

    pub(crate) fn bytes(&self) -> &[u8] {
        self.bytes.as_slice()
    }

    /// How many whole pages the bytes have.
    pub(crate) fn pages(&self) -> usize {
        self.bytes.len() / page_bytes(self.recipe.cells()).max(1)
    }

    /// How many bytes a page holds.
    pub(crate) fn payload(&self) -> usize {
        self.recipe.bytes()
    }

    fn medium(&mut self) -> Packed<'_> {
        let pages = self.pages();
        Packed {
            bytes: &mut self.bytes,
            pages,
            breadth: self.recipe.cells(),
        }
    }

    /// Does calls on the pages, one after another.
    pub(crate) fn live(&mut self, calls: &[Call<'_>]) -> Result<Outcome, Failure> {
        let mut answers = vec![in self.heap; Ok(0); calls.len()]?;
        let mut payloads = vec![in self.heap; 0; self.payload().saturating_mul(calls.len())]?;
        let pile = self.pile;
        let mut medium = self.medium();
        let mut memory = Memory {
            medium: &mut medium,
            code: pile,
        };
        live(&mut memory, calls, &mut answers, &mut payloads)?;
        Ok(Outcome { answers, payloads })
    }

    /// A page that there is, before and after correction: its word is corrected for the picture, and the page is read.
    pub(crate) fn inspect(&mut self, page: usize) -> Result<Inspection, Failure> {
        let (pile, heap) = (self.pile, self.heap);
        let breadth = breadth_of(&self.recipe)?;
        let mut cells = vec![in heap; 0; self.recipe.cells()]?;
        let mut marks = vec![in heap; 0; self.recipe.cells()]?;
        self.medium().fetch(page, &mut cells, &mut marks)?;
        let mut corrected = Vec::from_slice(heap, cells.as_slice())?;
        let answer = self.uphold(page, &mut corrected, marks.as_slice())?;
        Ok(Inspection {
            page,
            answer,
            reach: pile.distance(),
            breadth,
            cells,
            marks,
            corrected,
        })
    }

    // Corrects the word of a page, and reads the page.
    fn uphold(&mut self, page: usize, word: &mut [u8], marks: &[u8]) -> Result<Answer, Failure> {
        let mut answers = [Ok(0)];
        let mut payloads = vec![in self.heap; 0; self.payload()]?;
        let pile = self.pile;
        let mut medium = self.medium();
        let mut memory = Memory {
            medium: &mut medium,
            code: pile,
        };
        let calls = [Call::Read { page }];
        let upheld = uphold(
            &pile,
            word,
            marks,
            &mut memory,
            &calls,
            &mut answers,
            &mut payloads,
        );
        upheld.lived?;
        let [answer] = answers;
        Ok(answer)
    }
}

#[cfg(test)]
mod tests {
    use super::*;
    use std::iter;
    use std::test::Fail;

    // Eight columns of two cells. The word of the labels a, b is b and then a + b. Stage 1 repeats one bit and stage 2 is open: nine bits,
    // a byte and a spare bit, with reach 2.
    const RECIPE: [u8; 9] = [0x11, 0, 8, 2, 0, 1, 0, 0, 8];

    fn image(heap: Global) -> Result<Image, Fail> {
        let mut image = Image::open(heap, &Recipe::read(&RECIPE)?, Vec::new(heap))?;
        image.renew(2)?;
        Ok(image)
    }

    // The bits 1, then 0 1 1 0 0 1 0 and the spare 0: columns 01 10 10 01 01 10 01 01.
    #[test]
    fn a_page_lies_in_its_bytes(rt: HostRuntime) -> Result<(), Fail> {
        let mut image = image(rt.alloc())?;
        let write = Call::Write {
            page: 1,
            payload: &[0xb2],
        };
        let outcome = image.live(&[write, Call::Patrol { page: 2 }])?;
        let there = Fault::new(Kind::PageOutOfRange, Layer::Medium, 2).on_page(2);
        assert!(rt; outcome.answers.as_slice() == [Ok(0), Err(there)].as_slice());
        assert!(rt; image.bytes() == [0, 0, 0, 0, 0x69, 0x65, 0, 0].as_slice());
        Ok(())
    }

    // Eight columns of eight cells with reach 8. In the codeword of zeros each stage's labels are 0. Cell 9j lies in column j, so that each
    // damaged cell hides its column from stage 1 or turns its label over; four columns turned over, or eight hidden, score 8.
    fn worn(heap: Global, states: &[u8; 8]) -> Result<Result<usize, Fault>, Fail> {
        let recipe = [0x13, 0, 8, 2, 0, 1, 1, 0, 5, 1, 0, 7, 0, 0, 8];
        let mut image = Image::open(heap, &Recipe::read(&recipe)?, Vec::new(heap))?;
        image.renew(1)?;
        let wears = (0..64).step_by(9).zip(states);
        let calls: Vec<Call<'_>> = wears
            .map(|(cell, state)| Call::Wear {
                page: 0,
                cell,
                state: *state,
            })
            .chain(iter::once(Call::Read { page: 0 }))
            .collect(heap)?;
        let outcome = image.live(calls.as_slice())?;
        if outcome.payloads.iter().any(|byte| *byte != 0) {
            return Err(Fail::new("other bytes than were recorded"));
        }
        Ok(outcome.answers.last().copied().unwrap_or(Ok(9)))
    }

    #[test]
    fn harm_below_the_reach_is_undone(rt: HostRuntime) -> Result<(), Fail> {
        let heap = rt.alloc();
        let none = Fault::new(Kind::NoCodeword, Layer::Code, 1).on_page(0);
        assert_eq!(rt; worn(heap, &[1, 1, 1, 2, 0, 0, 0, 0])?, Ok(7));
        assert_eq!(rt; worn(heap, &[2, 2, 2, 2, 2, 2, 2, 0])?, Ok(7));
        assert_eq!(rt; worn(heap, &[1, 1, 1, 1, 0, 0, 0, 0])?, Err(none));
        assert_eq!(rt; worn(heap, &[2; 8])?, Err(none));
        Ok(())
    }

    // A blank cell is harm 1, and a cell turned over is harm 2, which is the reach.
    #[test]
    fn a_worn_page_is_read(rt: HostRuntime) -> Result<(), Fail> {
        let mut image = image(rt.alloc())?;
        let write = Call::Write {
            page: 0,
            payload: &[0xb2],
        };
        let blank = Call::Wear {
            page: 0,
            cell: 0,
            state: 2,
        };
        let outcome = image.live(&[write, blank, Call::Read { page: 0 }])?;
        assert!(rt; outcome.answers.as_slice() == [Ok(0), Ok(0), Ok(1)].as_slice());
        assert!(rt; outcome.payloads.as_slice() == [0, 0, 0xb2].as_slice());
        let shown = format!(in rt.alloc(); "{}", image.inspect(0)?)?;
        let expected = "inspect page 0: harm 1, 1 from the reach 2, 1 of its cells blank
  ?1
  10
  10
  01
  01
  10
  01
  01
";
        assert!(rt; shown.as_str() == expected);
        let turned = Call::Wear {
            page: 0,
            cell: 0,
            state: 1,
        };
        let outcome = image.live(&[turned, Call::Read { page: 0 }])?;
        let none = Fault::new(Kind::NoCodeword, Layer::Code, 2).on_page(0);
        assert!(rt; outcome.answers.as_slice() == [Ok(0), Err(none)].as_slice());
        Ok(())
    }
}
