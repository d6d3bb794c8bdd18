// One level of a nest: a pile over a chain of two cells and two stages, one of which may be a pile that is lent.
use chains::reed_muller::ReedMuller;
use codes::code::Code;
use codes::open::Open;
use codes::repetition::Repetition;
use either::Either;
use piles::pile::Pile;
use words::fault::Fault;

/// A code of a level: one that is lent, or a code of its own.
pub type Beside<'a, C> = Either<&'a C, Either<Open, Repetition>>;

/// A level over a code that is lent. However large that is, the level holds its parts' sizes and a reference.
pub type Level<'a, C> = Pile<ReedMuller, Beside<'a, C>>;

/// The innermost level, of one column: repetition, and open behind it.
pub fn innermost() -> Result<Pile<ReedMuller, Either<Open, Repetition>>, Fault> {
    let stages = [
        Either::Right(Repetition::new(1, 1)?),
        Either::Left(Open::new(1, 1)?),
    ];
    Pile::new(ReedMuller::new(1)?, &stages)
}

/// The code that is lent, and open behind it: the reach is at most 2.
pub fn before_open<C: Code>(below: &C) -> Result<Level<'_, C>, Fault> {
    let open = Open::new(1, below.len())?;
    let stages = [Either::Left(below), Either::Right(Either::Left(open))];
    Pile::new(ReedMuller::new(1)?, &stages)
}

/// Repetition, and behind it the code that is lent: the reach is twice that code's distance, if its length allows.
pub fn behind_repetition<C: Code>(below: &C) -> Result<Level<'_, C>, Fault> {
    let repetition = Repetition::new(1, below.len())?;
    let stages = [
        Either::Right(Either::Right(repetition)),
        Either::Left(below),
    ];
    Pile::new(ReedMuller::new(1)?, &stages)
}
