// Examples whose answers are known: a page that wears out, and the bounds on the number of columns.
use crate::failure::Failure;
use crate::plan::Plan;
use crate::text::Hex;
use lives::call::Call;
use lives::life::live;
use media::packed::Packed;
use memories::memory::Memory;
use recipe_piles::making::pile_of;
use recipe_piles::parts::RecipePile;
use recipes::recipe::Recipe;
use std::alloc::Global;
use words::fault::{Fault, Kind};

/// Eight columns of eight cells: 64 cells, five bytes, reach 8.
const PAGE: [u8; 15] = [0x13, 0, 8, 2, 0, 1, 1, 0, 5, 1, 0, 7, 0, 0, 8];

/// What cell 9j of a page of zeros is worn to, for each j: 1 is a cell turned over, and 2 a blank. Each lies in a column of its own.
#[derive(Clone, Copy)]
struct Wear {
    name: &'static str,
    states: [u8; 8],
    /// The harm of the page, where it is to be read.
    harm: Option<usize>,
}

const WEARS: [Wear; 4] = [
    Wear {
        name: "three flips and a blank",
        states: [1, 1, 1, 2, 0, 0, 0, 0],
        harm: Some(7),
    },
    Wear {
        name: "seven blanks",
        states: [2, 2, 2, 2, 2, 2, 2, 0],
        harm: Some(7),
    },
    Wear {
        name: "four flips",
        states: [1, 1, 1, 1, 0, 0, 0, 0],
        harm: None,
    },
    Wear {
        name: "eight blanks",
        states: [2, 2, 2, 2, 2, 2, 2, 2],
        harm: None,
    },
];

/// A recipe, and why it is to be refused, if it is.
#[derive(Clone, Copy)]
struct Bound {
    name: &'static str,
    bytes: &'static [u8],
    refusal: Option<Kind>,
}

const BOUNDS: [Bound; 4] = [
    Bound {
        name: "16 cells a column, N = 256",
        bytes: &[0x14, 1, 0, 2, 0, 1, 2, 0, 1, 2, 0, 1, 2, 0, 1, 0, 1, 0],
        refusal: None,
    },
    Bound {
        name: "16 cells a column, N = 257",
        bytes: &[0x14, 1, 1, 2, 0, 1, 2, 0, 1, 2, 0, 1, 2, 0, 1, 0, 1, 1],
        refusal: Some(Kind::Columns),
    },
    Bound {
        name: "Reed-Solomon at width 3, N = 8",
        bytes: &[0x13, 0, 8, 2, 0, 1, 1, 0, 5, 1, 0, 7, 0, 0, 8],
        refusal: None,
    },
    Bound {
        name: "Reed-Solomon at width 3, N = 9",
        bytes: &[0x13, 0, 9, 2, 0, 1, 1, 0, 5, 1, 0, 7, 0, 0, 9],
        refusal: Some(Kind::StageSize),
    },
];

/// What the read of a page answers, and the bytes that it fills.
#[derive(Drop)]
struct Read {
    answer: Result<usize, Fault>,
    payload: Vec<u8>,
}

/// The calls that write a page of zeros, wear it and read it.
fn calls_of(heap: Global, states: &[u8; 8]) -> Result<Vec<Call<'static>>, Failure> {
    let write = Call::Write {
        page: 0,
        payload: &[0; 5],
    };
    let mut calls = vec![in heap; write]?;
    for (j, state) in states.iter().enumerate() {
        if *state != 0 {
            calls.push(Call::Wear {
                page: 0,
                cell: 9 * j,
                state: *state,
            })?;
        }
    }
    calls.push(Call::Read { page: 0 })?;
    Ok(calls)
}

/// Does these calls on a packed page. Answers as the read, which is the last.
fn read_worn(heap: Global, pile: RecipePile, states: &[u8; 8]) -> Result<Read, Failure> {
    let calls = calls_of(heap, states)?;
    let mut bytes = [0; 16];
    let mut medium = Packed {
        bytes: &mut bytes,
        pages: 1,
        breadth: 64,
    };
    let mut memory = Memory {
        medium: &mut medium,
        code: pile,
    };
    let mut answers = vec![in heap; Ok(0); calls.len()]?;
    let mut payloads = vec![in heap; 9; calls.len().saturating_mul(5)]?;
    live(&mut memory, calls.as_slice(), &mut answers, &mut payloads)?;
    let answer = answers.last().copied().unwrap_or(Ok(0));
    let payload = Vec::from_slice(heap, payloads.as_slice().chunks(5).last().unwrap_or(&[]))?;
    Ok(Read { answer, payload })
}

/// A page's line, if its read is what it is to be.
fn tell_wear(heap: Global, pile: RecipePile, wear: &Wear) -> Result<String, Failure> {
    let name = wear.name;
    let Read { answer, payload } = read_worn(heap, pile, &wear.states)?;
    let payload = payload.as_slice();
    match (answer, wear.harm) {
        (Ok(harm), Some(sought)) if harm == sought && payload == [0; 5].as_slice() => {
            let bytes = Hex(payload);
            Ok(format!(in heap; "{name}: read with harm {harm}, bytes {bytes}")?)
        }
        (Err(fault), None) if fault.kind == Kind::NoCodeword => {
            Ok(format!(in heap; "{name}: {fault}")?)
        }
        (Ok(harm), _) => Err(Failure::Differs(format!(in heap; "{name}: read with harm {harm}")?)),
        (Err(fault), _) => Err(Failure::Differs(format!(in heap; "{name}: {fault}")?)),
    }
}

/// A recipe's line, if it is accepted or refused as it is to be, here and by the other reader.
fn tell_bound(heap: Global, bound: &Bound) -> Result<String, Failure> {
    let Bound {
        name,
        bytes,
        refusal,
    } = *bound;
    let other = Plan::read(heap, bytes)?.is_some();
    match Recipe::read(bytes) {
        Ok(recipe) if refusal.is_none() && other => {
            let (cells, reach) = (recipe.cells(), recipe.reach());
            Ok(format!(in heap; "{name}: accepted, {cells} cells, reach {reach}")?)
        }
        Err(fault) if refusal == Some(fault.kind) && !other => {
            Ok(format!(in heap; "{name}: {fault}")?)
        }
        Ok(_) => Err(Failure::Differs(format!(in heap; "{name}: accepted")?)),
        Err(fault) => Err(Failure::Differs(format!(in heap; "{name}: {fault}")?)),
    }
}

/// The lines of the page's examples.
pub(crate) fn tell_wears(heap: Global) -> Result<String, Failure> {
    let pile = pile_of(&Recipe::read(&PAGE)?)?;
    let mut text = String::new(heap);
    for wear in &WEARS {
        let line = tell_wear(heap, pile, wear)?;
        writeln!(text, "{line}")?;
    }
    Ok(text)
}

/// The lines of the bounds' examples.
pub(crate) fn tell_bounds(heap: Global) -> Result<String, Failure> {
    let mut text = String::new(heap);
    for bound in &BOUNDS {
        let line = tell_bound(heap, bound)?;
        writeln!(text, "{line}")?;
    }
    Ok(text)
}
