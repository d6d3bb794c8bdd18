// Compares each chain's estimate with a plain search over all rows, on readings that are made at random.
#![tactic(auto)]

ghost use Rattle.std.specs.Prelude.{◌≤◌};

mod comparison;
mod failure;
mod random;
mod tally;

use crate::comparison::Comparison;
use crate::failure::Failure;
use crate::tally::Tally;
use chains::chain::Chain;
use chains::even::Even;
use chains::reed_muller::ReedMuller;
use std::alloc::Global;
use std::io;
use words::fault::Fault;

// Compares a chain at a stage.
fn compare<H: Chain>(alloc: Global, chain: &H, stage: usize, seed: u64) -> Result<Tally, Failure>
    requires { 1 ≤ stage }
{
    Comparison::new(alloc, chain, stage)?.run(seed)
}

// Compares the stages of the chain that a number makes, a line to each, also where it is refused.
fn show<H: Chain + Drop, F: Fn(u8) -> Result<H, Fault>>(
    rt: &HostRuntime,
    name: &str,
    seed: u64,
    number: u8,
    make: &F,
) -> io::Result<()>
    requires { F.IsAlwaysCallable make.now }
{
    let Ok(chain) = make(number) else {
        return println!(rt; "no such chain");
    };
    for stage in 1..=chain.stages() {
        match compare(rt.alloc(), &chain, stage, seed) {
            Ok(tally) => println!(rt; "{name} {number}, stage {stage}: {tally}")?,
            Err(Failure::Refused(_)) => println!(rt; "{name} {number}, stage {stage}: refused")?,
            Err(Failure::NoRoom(error)) => return Err(error.into()),
        }
    }
    Ok(())
}

fn main(rt: HostRuntime) -> io::Result<()> {
    for r in 1..=4 {
        show(&rt, "reed-muller", 12345, r, &ReedMuller::new)?;
    }
    for n in 2..=9 {
        show(&rt, "even", 54321, n, &Even::new)?;
    }
    Ok(())
}
