// Recipes drawn at random, for each way to decide.
use crate::decoder::FEW_BITS;
use crate::failure::Failure;
use crate::inner::Chain;
use crate::plan::Plan;
use crate::random::Random;
use crate::readings::{Level, Readings};
use recipes::recipe::Recipe;
use std::alloc::{AllocError, Global};
use std::fmt;

/// The bytes of the chains. The last is never one of few messages, since its stages take at least 16 bits.
const CHAINS: [u8; 12] = [
    0x11, 0x12, 0x13, 0x22, 0x23, 0x24, 0x25, 0x26, 0x27, 0x28, 0x29, 0x14,
];

/// How often a recipe is drawn anew until one is as it is wanted.
const TRIES: usize = 1_000_000;

/// The most message bits of a pile that stands inside another.
const HELD_BITS: usize = 6;

/// How the other decoder decides, and so which recipes are drawn.
#[derive(Clone, Copy, PartialEq, Eq)]
pub(crate) enum Decision {
    /// By all messages, which are few.
    Exhaustive,
    /// By elimination, where there are many.
    Elimination,
    /// By all messages of a pile that holds another one, in place of each code of width 1.
    Nested,
    /// By all messages of a pile that holds a nested one so.
    NestedTwice,
}

/// A pile as both sides know it: the recipes from the innermost on, their bytes one behind the other, and the plan of the whole.
#[derive(Drop)]
pub(crate) struct Drawn {
    pub(crate) recipes: Vec<Recipe>,
    pub(crate) bytes: Vec<u8>,
    pub(crate) plan: Plan,
}

/// The bounds of a recipe's numbers.
#[derive(Clone, Copy)]
struct Shape {
    /// The chain's byte, if it is given.
    chain: Option<u8>,
    /// The number of columns, if it is given.
    columns: Option<usize>,
    /// The most cells, if it is not.
    most_cells: usize,
    /// The most symbols of a Reed-Solomon code's message.
    most_symbols: usize,
}

impl fmt::Display for Decision {
    fn fmt<W: fmt::Write>(&self, f: &mut fmt::Formatter<W>) -> fmt::Result {
        f.write_str(match self {
            Decision::Exhaustive => "exhaustive",
            Decision::Elimination => "elimination",
            Decision::Nested => "nested",
            Decision::NestedTwice => "nested twice",
        })
    }
}

impl Decision {
    /// How many recipes are drawn.
    pub(crate) fn turns(self) -> usize {
        match self {
            Decision::Exhaustive => 132,
            Decision::Elimination => 96,
            Decision::Nested => 22,
            Decision::NestedTwice => 8,
        }
    }

    /// How many piles stand one in the other.
    fn depth(self) -> usize {
        match self {
            Decision::Exhaustive | Decision::Elimination => 1,
            Decision::Nested => 2,
            Decision::NestedTwice => 3,
        }
    }

    /// The byte of the outermost recipe's chain, in turn, or none where it is drawn: where a large reach or two piles inside leave only some
    /// chains.
    fn chain(self, turn: usize) -> Option<u8> {
        match self {
            Decision::Exhaustive | Decision::Nested => CHAINS.get(turn % 11).copied(),
            Decision::Elimination if turn < 48 => CHAINS.get(turn % 12).copied(),
            Decision::Elimination | Decision::NestedTwice => None,
        }
    }

    /// The least reach that is wanted.
    fn reach(self, turn: usize) -> usize {
        match self {
            Decision::Exhaustive => 1 << (turn / 11 % 4),
            Decision::Elimination if turn < 48 => turn / 12 % 2 + 1,
            Decision::Elimination => 4 << (turn % 3),
            Decision::Nested | Decision::NestedTwice => turn % 4 + 1,
        }
    }

    /// The bounds of the recipe that stands at a depth from 0, the innermost. Of each chain one recipe of few messages may have as many cells as
    /// there can be.
    fn shape(self, turn: usize, depth: usize) -> Shape {
        let (most_cells, most_symbols) = match self {
            Decision::Exhaustive if turn / 11 == 7 => (4096, 2),
            Decision::Exhaustive => (256, 2),
            Decision::Elimination => (256, 256),
            Decision::Nested | Decision::NestedTwice => (12, 2),
        };
        let outermost = depth.saturating_add(1) == self.depth();
        Shape {
            chain: if outermost { self.chain(turn) } else { None },
            columns: None,
            most_cells,
            most_symbols,
        }
    }

    /// Whether a plan can be decided so, and has the reach that is wanted in a turn.
    fn wants(self, turn: usize, plan: &Plan) -> bool {
        let few = plan.message_bits() <= FEW_BITS;
        few == (self != Decision::Elimination) && plan.reach() >= self.reach(turn)
    }
}

fn push_number(bytes: &mut Vec<u8>, number: usize) -> Result<(), AllocError> {
    bytes.push((number / 256 % 256) as u8)?;
    bytes.push((number % 256) as u8)?;
    Ok(())
}

/// Mostly few columns.
fn draw_columns(random: &mut Random, most: usize) -> usize {
    let pick = random.below(4);
    let bound = [4, 16, 64].get(pick).copied().unwrap_or(most);
    random.below(bound.min(most)).saturating_add(1)
}

/// The bytes of a recipe, which is refused where a kind or a message length does not fit.
fn draw_bytes(heap: Global, random: &mut Random, shape: Shape) -> Result<Vec<u8>, AllocError> {
    let byte = match shape.chain {
        Some(byte) => byte,
        None => CHAINS.get(random.below(12)).copied().unwrap_or(0),
    };
    let (cells, stages) = match Chain::named(byte) {
        Some(chain) => (chain.cells(), chain.stages()),
        None => (1, 0),
    };
    let columns = match shape.columns {
        Some(columns) => columns,
        None => draw_columns(random, shape.most_cells / cells.max(1)),
    };
    let mut bytes = vec![in heap; byte]?;
    push_number(&mut bytes, columns)?;
    for _ in 0..stages {
        let kind = random.below(4);
        let k = match kind {
            0 => columns,
            2 => 1,
            _ => random.below(columns.min(shape.most_symbols).saturating_add(2)),
        };
        bytes.push((kind % 256) as u8)?;
        push_number(&mut bytes, k)?;
    }
    Ok(bytes)
}

impl Drawn {
    fn new(heap: Global, level: Level) -> Result<Drawn, AllocError> {
        let Level {
            recipe,
            plan,
            bytes,
        } = level;
        Ok(Drawn {
            recipes: vec![in heap; recipe]?,
            bytes,
            plan,
        })
    }

    /// Puts the pile into that of another recipe.
    fn enclose(&mut self, heap: Global, level: Level) -> Result<(), AllocError> {
        let Level {
            recipe,
            mut plan,
            bytes,
        } = level;
        plan.hold(heap, &self.plan)?;
        self.plan = plan;
        self.recipes.push(recipe)?;
        self.bytes.extend_from_slice(bytes.as_slice())
    }
}

/// A pile of as many recipes as a decision wants, if each is accepted and those inside have few messages.
fn draw_once(
    heap: Global,
    random: &mut Random,
    readings: &mut Readings,
    decision: Decision,
    turn: usize,
) -> Result<Option<Drawn>, Failure> {
    let shape = decision.shape(turn, 0);
    let Some(level) = readings.read(heap, draw_bytes(heap, random, shape)?)? else {
        return Ok(None);
    };
    let mut drawn = Drawn::new(heap, level)?;
    for depth in 1..decision.depth() {
        if drawn.plan.message_bits() > HELD_BITS {
            return Ok(None);
        }
        let shape = Shape {
            columns: Some(drawn.plan.cells()),
            ..decision.shape(turn, depth)
        };
        let Some(level) = readings.read(heap, draw_bytes(heap, random, shape)?)? else {
            return Ok(None);
        };
        drawn.enclose(heap, level)?;
    }
    Ok(Some(drawn))
}

/// Draws until a pile is as a decision wants it in a turn.
pub(crate) fn draw(
    heap: Global,
    random: &mut Random,
    readings: &mut Readings,
    decision: Decision,
    turn: usize,
) -> Result<Drawn, Failure> {
    for _ in 0..TRIES {
        if let Some(drawn) = draw_once(heap, random, readings, decision, turn)?
            && decision.wants(turn, &drawn.plan)
        {
            return Ok(drawn);
        }
    }
    Err(Failure::NoRecipe)
}
