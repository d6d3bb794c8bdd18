// Compares the calls of Reed-Solomon codes with a decoder of this program's own, on words that are made at random.
#![tactic(auto)]

mod comparison;
mod tally;
mod trials;

use by_elimination::arithmetic::{Products, Rule};
use by_elimination::decoder::Decoder;
use comparison::{Comparison, Stop};
use fields::field::Field;
use fields::polynomial::Polynomial;
use fields::worked::recipe_extension;
use std::alloc::Global;
use std::io;
use tally::Tally;
use words::fault::Fault;

/// What comes of a field that has a rule's products.
fn compare<F: Field + Copy>(
    alloc: Global,
    field: Result<F, Fault>,
    rule: Rule,
) -> Result<Tally, Stop> {
    let products = Products::new(rule);
    let decoder = Decoder {
        alloc,
        products: &products,
    };
    Comparison::new(decoder, rule.elements()).run(field?)
}

// A line for a field, also where it is refused.
fn show(rt: &HostRuntime, name: &str, width: u8, tally: Result<Tally, Stop>) -> io::Result<()> {
    match tally {
        Ok(tally) => println!(rt; "{name} {width}: {tally}"),
        Err(Stop::Refused(_)) => println!(rt; "{name} {width}: refused"),
        Err(Stop::NoRoom(error)) => Err(error.into()),
    }
}

fn main(rt: HostRuntime) -> io::Result<()> {
    for width in 1..=8 {
        let tally = compare(rt.alloc(), Polynomial::new(width), Rule::polynomial(width));
        show(&rt, "polynomial", width, tally)?;
        if width % 2 == 0 {
            let tally = compare(rt.alloc(), recipe_extension(width), Rule::extension(width));
            show(&rt, "extension", width, tally)?;
        }
    }
    Ok(())
}
