// Words made at random: a codeword or any cells, with some turned over and some blank.
use crate::random::Random;
use crate::sets;
use std::alloc::{AllocError, Global};

/// The most sets of cells turned over that the decoder by elimination is made to go through for a word.
const MOST_SETS: usize = 50_000;

/// How many cells of a word are made blank and are turned over.
#[derive(Clone, Copy)]
pub(crate) struct Trial {
    pub(crate) blanks: usize,
    pub(crate) flips: usize,
    /// Whether the word is of cells at random before, and no codeword.
    pub(crate) stray: bool,
}

/// How few blanks a word may have so that, below the reach, the cells turned over leave few sets to go through.
pub(crate) fn fewest_blanks(cells: usize, reach: usize) -> usize {
    let flips = (0..cells)
        .take_while(|flips| sets::count(cells, *flips) <= MOST_SETS)
        .count()
        .saturating_sub(1);
    reach.saturating_sub(flips.saturating_mul(2).saturating_add(1))
}

/// The harm to aim at: around the reach, and any.
fn aim(random: &mut Random, reach: usize, turn: usize) -> usize {
    match turn % 8 {
        0 | 1 => reach.saturating_sub(1),
        2 => reach,
        3 => reach.saturating_add(1),
        4 | 5 => random.below(reach),
        _ => random.below(reach.saturating_mul(2)),
    }
}

impl Trial {
    /// The trial of a turn. In every other run of eight turns as few cells are blank as may be.
    pub(crate) fn new(
        random: &mut Random,
        cells: usize,
        reach: usize,
        fewest: usize,
        turn: usize,
    ) -> Trial {
        let aim = aim(random, reach, turn);
        let most = if turn % 16 < 8 {
            fewest
        } else {
            aim.min(cells)
        };
        let more = random.below(most.saturating_sub(fewest).saturating_add(1));
        let drawn = fewest.saturating_add(more);
        let odd = aim.saturating_sub(drawn) % 2;
        let blanks = drawn.saturating_add(odd).min(cells);
        Trial {
            blanks,
            flips: (aim.saturating_sub(blanks) / 2).min(cells.saturating_sub(blanks)),
            stray: turn % 8 == 7,
        }
    }

    /// Makes cells blank and turns others over, all choices alike. A blank cell holds any value.
    pub(crate) fn spoil(self, random: &mut Random, word: &mut [u8], marks: &mut [u8]) {
        let Trial {
            mut blanks,
            mut flips,
            ..
        } = self;
        let mut left = word.len();
        for (cell, mark) in word.iter_mut().zip(marks.iter_mut()) {
            let pick = random.below(left);
            left = left.saturating_sub(1);
            if pick < blanks {
                blanks -= 1;
                *cell = random.bit();
                *mark = 1;
            } else if pick - blanks < flips {
                flips -= 1;
                *cell ^= 1;
            }
        }
    }
}

/// As many bits at random.
pub(crate) fn draw_bits(
    heap: Global,
    random: &mut Random,
    len: usize,
) -> Result<Vec<u8>, AllocError> {
    let mut bits = Vec::with_capacity(heap, len)?;
    for _ in 0..len {
        bits.push(random.bit())?;
    }
    Ok(bits)
}
