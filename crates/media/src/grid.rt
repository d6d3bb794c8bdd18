// The grid: one byte a cell.
// The grid and packed cells are two types over `checks` and `state`. One type over a layout would need a trait of layouts whose clauses say of
// bytes what those of `Medium` say of pages.
ghost use Rattle.std.specs.Prelude.{◌≡◌, ◌+◌, ◌*◌, ◌<◌, [], ◌∷◌, map, length, MatchResult, slice_set};
ghost use Rattle.std.proofs.Common.{sym, ◌∙◌};
ghost use Rattle.words.specs.Buffers.{checked};
ghost use Rattle.media_laws.specs.Grid.{GridFits, bytes_put, page_bytes, put_byte, put_bytes, state_of};
ghost use Rattle.media_laws.specs.Model.{value_of, mark_of, Unchanged};
ghost use Rattle.media.specs.Lent.{grid_of, grid_refusal, GridSound};
ghost use Rattle.media_laws.proofs.Grids.{grid_lawful};
ghost use Rattle.media_laws.proofs.Lent.{fits};

use crate::checks::{check_cell, check_fetch, check_page, check_put, in_range};
use crate::medium::Medium;
use crate::state::State;
use words::fault::{Fault, Kind, Layer};

/// One byte a cell, page after page: 0, 1, and blank from 2 up.
#[derive(Drop)]
pub struct Grid<'a> {
    pub bytes: &'a mut [u8],
    pub pages: usize,
    pub breadth: usize,
}

fn put_to(byte: u8, cell: u8) -> u8
    ensures { result ≡ put_byte byte cell }
{
    if State::from(byte) == State::Blank {
        byte
    } else {
        cell
    }
}

fn show(bytes: &[u8], cells: &mut [u8], marks: &mut [u8])
    requires { (length cells.old ≡ length bytes.now) × (length marks.old ≡ length bytes.now) }
    ensures cells { cells.new ≡ map value_of (map state_of bytes.now) }
    ensures marks { marks.new ≡ map mark_of (map state_of bytes.now) }
{
    // Both are written in one pass: of what a zip of `iter_mut` writes nothing is proved.
    for (i, byte) in bytes.iter().enumerate() {
        let state = State::from(*byte);
        cells[i] = state.value();
        marks[i] = state.mark();
    }
}

#[tactic(auto, using(media_laws::proofs::Fills::put_none, media_laws::proofs::Fills::put_more))]
fn store(bytes: &mut [u8], cells: &[u8])
    requires { length cells.now ≡ length bytes.old }
    ensures { bytes.new ≡ put_bytes bytes.old cells.now }
{
    // By index into the cells: of what a zip of `iter_mut` writes nothing is proved.
    for (i, byte) in bytes.iter_mut().enumerate() {
        *byte = put_to(*byte, cells[i]);
    }
}

impl Grid<'_> {
    fn show_page(&self, page: usize, cells: &mut [u8], marks: &mut [u8])
        requires { (GridFits self.now.bytes.now self.now.pages self.now.breadth) × ((page < self.now.pages) × ((length cells.old ≡ self.now.breadth) × (length marks.old ≡ self.now.breadth))) }
        ensures cells { cells.new ≡ map value_of (map state_of (page_bytes self.now.bytes.now self.now.breadth page)) }
        ensures marks { marks.new ≡ map mark_of (map state_of (page_bytes self.now.bytes.now self.now.breadth page)) }
    {
        let start = page * self.breadth;
        let end = start + self.breadth;
        show(&self.bytes[start..end], cells, marks);
    }
}

impl Medium for Grid<'_> {
    ghost model = { grid_of };

    ghost refusal = { grid_refusal };

    ghost lenders = { λ g. g.bytes.ghost_name ∷ [] };

    // each cell stands where the page has it
    ghost order = { λ _. [] };

    ghost held = { λ g. g.bytes.now };

    ghost puts = { λ _ breadth before after page cells. after ≡ bytes_put before breadth page cells };

    ghost wears = { λ _ breadth before after page cell state. after ≡ slice_set before (page * breadth + cell) state };

    ghost beside = { λ _. [] };

    ghost after_fetch = { λ _ kept. kept };

    ghost after_put = { λ _ kept. kept };

    ghost lawful = { λ g sound. grid_lawful g.bytes.now g.pages g.breadth (fits g.pages g.breadth (g.pages * g.breadth) g.bytes.now sound) };

    ghost one_put = { λ _ breadth before after other page cells put put'. put' ∙ sym put };

    ghost one_worn = { λ _ breadth before after other page cell state worn worn'. worn' ∙ sym worn };

    fn check(&self) -> Result<(), Fault>
        ensures refusal { result ≡ checked (grid_refusal self.now) }
        ensures fits { MatchResult result (λ _. GridSound self.now) (λ _. GridSound self.now → ⊥) }
    {
        let len = self.bytes.len();
        if in_range(self.pages, self.breadth) && len == self.pages * self.breadth {
            Ok(())
        } else {
            Err(Fault::new(Kind::UnfitMedium, Layer::Medium, len))
        }
    }

    fn pages(&self) -> usize
        ensures { result ≡ self.now.pages }
    {
        self.pages
    }

    fn breadth(&self) -> usize
        ensures { result ≡ self.now.breadth }
    {
        self.breadth
    }

    fn fetch(&mut self, page: usize, cells: &mut [u8], marks: &mut [u8]) -> Result<(), Fault> {
        self.check()?;
        check_page(page, self.pages)?;
        check_fetch(cells, marks, self.breadth)?;
        self.show_page(page, cells, marks);
        Ok(())
    }

    fn put(&mut self, page: usize, cells: &[u8]) -> Result<(), Fault> {
        self.check()?;
        check_page(page, self.pages)?;
        check_put(cells, self.breadth)?;
        let start = page * self.breadth;
        let end = start + self.breadth;
        store(&mut self.bytes[start..end], cells);
        Ok(())
    }

    fn wear(&mut self, page: usize, cell: usize, state: u8) -> Result<(), Fault> {
        self.check()?;
        check_page(page, self.pages)?;
        check_cell(cell, self.breadth, state)?;
        self.bytes[page * self.breadth + cell] = state;
        Ok(())
    }
}
