// Packed cells: two bits a cell, its value and its mark.
ghost use Rattle.std.specs.Prelude.{◌≡◌, [], ◌∷◌, ◌+◌, ◌-◌, ◌*◌, ◌/◌, ◌%◌, ◌^◌, ◌<◌, ◌≤◌, map, length, if◌then◌else◌, MatchResult, bit_and, bit_or, nat_eq};
ghost use Rattle.std.specs.List.{range_with_len, AllByRecursion};
ghost use Rattle.words.specs.Buffers.{checked};
ghost use Rattle.media_laws.specs.Model.{value_of, mark_of, Unchanged};
ghost use Rattle.media_laws.specs.Packed.{row_bytes, first_value, first_mark, bit_of, cell_of, cell_at, put_bit, BitSet, BitsPut, BitsWorn};
ghost use Rattle.media_laws.proofs.Lent.{fits};
ghost use Rattle.media_laws.proofs.Packs.{packed_lawful};
ghost use Rattle.media_laws.proofs.Single.{one_put, one_worn};
ghost use Rattle.media.specs.Lent.{packed_of, packed_refusal, Bytes, PackedSound};
ghost use Rattle.media.specs.States.{number};

use crate::checks::{check_cell, check_fetch, check_page, check_put, in_range};
use crate::medium::Medium;
use crate::state::State;
use words::fault::{Fault, Kind, Layer};

/// Two bits a cell, page after page: a row of value bits and then a row of mark bits, each in whole bytes, the first cell most significant.
/// Bits past a row's cells are ignored and never change.
#[derive(Drop)]
pub struct Packed<'a> {
    pub bytes: &'a mut [u8],
    pub pages: usize,
    pub breadth: usize,
}

// Where the two bits of a cell stand.
#[derive(Clone, Copy)]
struct Place {
    value: usize,
    mark: usize,
}

impl Place {
    // Where those of a cell further on in the page do.
    fn further(self, cells: usize) -> Place
        requires { (self.value + cells < 2 ^ 64) × (self.mark + cells < 2 ^ 64) }
        ensures value { result.value ≡ self.value + cells }
        ensures mark { result.mark ≡ self.mark + cells }
    {
        Place {
            value: self.value + cells,
            mark: self.mark + cells,
        }
    }
}

fn weight(at: usize) -> u8
    ensures { result ≡ 2 ^ (7 - at % 8) }
{
    1 << (7 - at % 8)
}

fn bit(bytes: &[u8], at: usize) -> u8
    requires { at < 8 * length bytes.now }
    ensures { result ≡ bit_of bytes.now at }
{
    bytes[at / 8] / weight(at) % 2
}

fn with_bit(byte: u8, weight: u8, bit: u8) -> u8
    ensures { result ≡ (if nat_eq bit 1 then bit_or byte weight else bit_and byte (255 - weight)) }
{
    if bit == 1 {
        byte | weight
    } else {
        byte & !weight
    }
}

fn set_bit(bytes: &mut [u8], at: usize, bit: u8)
    requires { (at < 8 * length bytes.old) × (bit < 2) }
    ensures { BitSet bytes.old bytes.new at bit }
{
    bytes[at / 8] = with_bit(bytes[at / 8], weight(at), bit);
}

// The state of a cell; under a mark its value is ignored.
fn state(bytes: &[u8], place: Place) -> State
    requires { (place.value < 8 * length bytes.now) × (place.mark < 8 * length bytes.now) }
    ensures { number result ≡ cell_of (bit_of bytes.now place.value) (bit_of bytes.now place.mark) }
{
    if bit(bytes, place.mark) == 1 {
        State::Blank
    } else {
        State::from(bit(bytes, place.value))
    }
}

fn show(bytes: &[u8], first: Place, cells: &mut [u8], marks: &mut [u8])
    requires values { first.value + length cells.old ≤ 8 * length bytes.now }
    requires marks { first.mark + length cells.old ≤ 8 * length bytes.now }
    requires lengths { (length marks.old ≡ length cells.old) × (length bytes.now < 2 ^ 60) }
    ensures cells { cells.new ≡ map (λ i. value_of (cell_at bytes.now first.value first.mark i)) (range_with_len 0 (length cells.old)) }
    ensures marks { marks.new ≡ map (λ i. mark_of (cell_at bytes.now first.value first.mark i)) (range_with_len 0 (length cells.old)) }
{
    // The marks by index, since of what a zip of `iter_mut` writes nothing is proved.
    for (i, cell) in cells.iter_mut().enumerate() {
        let state = state(bytes, first.further(i));
        *cell = state.value();
        marks[i] = state.mark();
    }
}

// Puts a value to a cell that is not blank.
fn put_cell(bytes: &mut [u8], place: Place, cell: u8)
    requires { (place.value < 8 * length bytes.old) × ((place.mark < 8 * length bytes.old) × (cell < 2)) }
    ensures put { BitSet bytes.old bytes.new place.value (put_bit bytes.old place.value place.mark cell) }
    ensures bytes { Bytes bytes.new }
{
    if bit(bytes, place.mark) == 0 {
        set_bit(bytes, place.value, cell);
    }
}

#[tactic(auto, using(media_laws::proofs::Packs::put_more, media_laws::proofs::Packs::put_none))]
fn store(bytes: &mut [u8], first: Place, cells: &[u8])
    requires apart { first.value + length cells.now ≤ first.mark }
    requires within { (first.mark + length cells.now ≤ 8 * length bytes.old) × (length bytes.old < 2 ^ 60) }
    requires cells { AllByRecursion (λ v. v < 2) cells.now }
    ensures put { BitsPut bytes.old bytes.new first.value first.mark cells.now (length cells.now) }
    ensures bytes { Bytes bytes.new }
{
    for (i, cell) in cells.iter().enumerate() {
        put_cell(bytes, first.further(i), *cell);
    }
}

fn wear_bits(bytes: &mut [u8], place: Place, state: State)
    requires { (place.value < place.mark) × (place.mark < 8 * length bytes.old) }
    ensures worn { BitsWorn bytes.old bytes.new place.value place.mark (number state) }
    ensures bytes { Bytes bytes.new }
{
    if state == State::Blank {
        set_bit(bytes, place.mark, 1);
    } else {
        set_bit(bytes, place.value, state.value());
        set_bit(bytes, place.mark, 0);
    }
}

// How many bytes hold a bit for each cell of a page.
fn row_bytes(breadth: usize) -> usize
    requires { breadth ≤ 4096 }
    ensures { result ≡ row_bytes breadth }
{
    breadth.div_ceil(8)
}

impl Packed<'_> {
    // Where the bits of a page's first cell stand.
    fn first(&self, page: usize) -> Place
        requires { (self.now.breadth ≤ 4096) × (page < 65536) }
        ensures value { result.value ≡ first_value self.now.breadth page }
        ensures mark { result.mark ≡ first_mark self.now.breadth page }
    {
        let row = row_bytes(self.breadth);
        let value = 8 * (page * (2 * row));
        Place {
            value,
            mark: value + 8 * row,
        }
    }

    fn show_page(&self, page: usize, cells: &mut [u8], marks: &mut [u8])
        requires { (PackedSound self.now) × ((page < self.now.pages) × ((length cells.old ≡ self.now.breadth) × (length marks.old ≡ self.now.breadth))) }
        ensures cells { cells.new ≡ map value_of ((packed_of self.now).page page) }
        ensures marks { marks.new ≡ map mark_of ((packed_of self.now).page page) }
    {
        show(self.bytes, self.first(page), cells, marks);
    }
}

impl Medium for Packed<'_> {
    ghost model = { packed_of };

    ghost refusal = { packed_refusal };

    ghost lenders = { λ k. k.bytes.ghost_name ∷ [] };

    // each cell stands where the page has it
    ghost order = { λ _. [] };

    ghost held = { λ k. k.bytes.now };

    ghost puts = { λ _ breadth before after page cells.
        BitsPut before after (first_value breadth page) (first_mark breadth page) cells breadth × Bytes after };

    ghost wears = { λ _ breadth before after page cell state.
        BitsWorn before after (first_value breadth page + cell) (first_mark breadth page + cell) state × Bytes after };

    ghost beside = { λ _. [] };

    ghost after_fetch = { λ _ kept. kept };

    ghost after_put = { λ _ kept. kept };

    ghost lawful = { λ k sound. packed_lawful k.bytes.now k.pages k.breadth (fits k.pages k.breadth (k.pages * (2 * row_bytes k.breadth)) k.bytes.now sound) };

    ghost one_put = { λ _ breadth before after other page cells put put'.
        one_put before after other put.1 put'.1 (first_value breadth page) (first_mark breadth page) cells breadth put.0 put'.0 };

    ghost one_worn = { λ _ breadth before after other page cell state worn worn'.
        one_worn before after other worn.1 worn'.1 (first_value breadth page + cell) (first_mark breadth page + cell) state worn.0 worn'.0 };

    fn check(&self) -> Result<(), Fault>
        ensures refusal { result ≡ checked (packed_refusal self.now) }
        ensures fits { MatchResult result (λ _. PackedSound self.now) (λ _. PackedSound self.now → ⊥) }
    {
        let len = self.bytes.len();
        if in_range(self.pages, self.breadth) && len == self.pages * (2 * row_bytes(self.breadth)) {
            Ok(())
        } else {
            Err(Fault::new(Kind::UnfitMedium, Layer::Medium, len))
        }
    }

    fn pages(&self) -> usize
        ensures { result ≡ self.now.pages }
    {
        self.pages
    }

    fn breadth(&self) -> usize
        ensures { result ≡ self.now.breadth }
    {
        self.breadth
    }

    fn fetch(&mut self, page: usize, cells: &mut [u8], marks: &mut [u8]) -> Result<(), Fault> {
        self.check()?;
        check_page(page, self.pages)?;
        check_fetch(cells, marks, self.breadth)?;
        self.show_page(page, cells, marks);
        Ok(())
    }

    fn put(&mut self, page: usize, cells: &[u8]) -> Result<(), Fault> {
        self.check()?;
        check_page(page, self.pages)?;
        check_put(cells, self.breadth)?;
        let first = self.first(page);
        store(self.bytes, first, cells);
        Ok(())
    }

    fn wear(&mut self, page: usize, cell: usize, state: u8) -> Result<(), Fault> {
        self.check()?;
        check_page(page, self.pages)?;
        check_cell(cell, self.breadth, state)?;
        let place = self.first(page).further(cell);
        wear_bits(self.bytes, place, State::from(state));
        Ok(())
    }
}
