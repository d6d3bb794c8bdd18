// Compares what the library makes of words at random with what another decoder makes of them. That one (`decoder`, and what it uses)
// shares no code with the library: it reads the recipe's bytes, encodes and decides by means of its own.
#![tactic(auto)]

mod bits;
mod comparison;
mod decoder;
mod draws;
mod elimination;
mod exhaustive;
mod failure;
mod field;
mod inner;
mod nesting;
mod outer;
mod places;
mod plan;
mod random;
mod reading;
mod readings;
mod sets;
mod tally;
mod text;
mod trials;
mod worked;

use crate::comparison::Comparison;
use crate::decoder::Decoder;
use crate::draws::{Decision, draw};
use crate::failure::Failure;
use crate::places::Stages;
use crate::random::Random;
use crate::readings::Readings;
use crate::tally::Tally;
use crate::worked::{tell_bounds, tell_wears};
use anyhow::anyhow;
use std::alloc::Global;
use std::env;

/// What a run begins with: the seed of its random numbers, and how many words of each recipe are compared.
#[derive(Clone, Copy)]
struct Order {
    seed: u64,
    words: usize,
}

const USUAL: Order = Order {
    seed: 20_000,
    words: 100,
};

impl Order {
    /// The order that arguments give: none, a seed, or a seed and a count of words.
    fn parse(arguments: &[String]) -> Option<Order> {
        match arguments {
            [] => Some(USUAL),
            [seed] => Some(Order {
                seed: seed.as_str().parse().ok()?,
                ..USUAL
            }),
            [seed, words] => Some(Order {
                seed: seed.as_str().parse().ok()?,
                words: words.as_str().parse().ok()?,
            }),
            _ => None,
        }
    }
}

/// Compares the words of all recipes that are drawn for a way to decide.
fn compare(
    heap: Global,
    random: &mut Random,
    readings: &mut Readings,
    decision: Decision,
    words: usize,
) -> Result<Tally, Failure> {
    let mut tally = Tally::default();
    for turn in 0..decision.turns() {
        let drawn = draw(heap, random, readings, decision, turn)?;
        let mut comparison = Comparison {
            heap,
            drawn: &drawn,
            decoder: Decoder::new(heap, &drawn.plan)?,
            stages: Stages::new(heap, &drawn.plan)?,
            tally: &mut tally,
        };
        comparison.run_drawn(random, words)?;
    }
    Ok(tally)
}

/// Passes a failure on. What differs is printed before, since the text of an error that ends a program is cut short.
fn told<T>(rt: &HostRuntime, outcome: Result<T, Failure>) -> anyhow::Result<T> {
    match outcome {
        Ok(value) => Ok(value),
        Err(Failure::Differs(text)) => {
            rt.println(text.as_str())?;
            Err(anyhow!("there is a difference"))
        }
        Err(other) => Err(anyhow::Error::from(other)),
    }
}

const DECISIONS: [Decision; 4] = [
    Decision::Exhaustive,
    Decision::Elimination,
    Decision::Nested,
    Decision::NestedTwice,
];

fn main(rt: HostRuntime) -> anyhow::Result<()> {
    let heap = rt.alloc();
    let arguments: Vec<String> = env::args(&rt)?.skip(1).collect(heap)?;
    let Some(Order { seed, words }) = Order::parse(arguments.as_slice()) else {
        return Err(anyhow!("a seed and a count of words, or nothing"));
    };
    rt.print(told(&rt, tell_wears(heap))?.as_str())?;
    rt.print(told(&rt, tell_bounds(heap))?.as_str())?;
    let mut random = Random(seed);
    let mut readings = Readings::default();
    for decision in DECISIONS {
        let outcome = compare(heap, &mut random, &mut readings, decision, words);
        let tally = told(&rt, outcome)?;
        println!(rt; "{decision}: {tally}")?;
    }
    let Readings { accepted, refused } = readings;
    println!(rt; "recipes drawn: {accepted} accepted and {refused} refused by both readers")?;
    println!(rt; "no difference")?;
    Ok(())
}
