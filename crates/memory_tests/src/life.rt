use crate::faults::refused;
use chains::reed_muller::ReedMuller;
use codes::open::Open;
use codes::repetition::Repetition;
use either::Either;
use lives::call::Call;
use lives::life::live;
use media::packed::Packed;
use memories::memory::Memory;
use piles::pile::Pile;
use std::test::Fail;
use words::fault::{Fault, Kind, Layer};

// Eight columns of a chain of eight cells: 64 cells and reach 4. Of the 36 bits of a message four are spare.
fn small_pile() -> Result<Pile<ReedMuller, Either<Open, Repetition>>, Fault> {
    let stages = [
        Either::Right(Repetition::new(1, 8)?),
        Either::Right(Repetition::new(3, 8)?),
        Either::Left(Open::new(3, 8)?),
        Either::Left(Open::new(1, 8)?),
    ];
    Pile::new(ReedMuller::new(3)?, &stages)
}

// Three blank cells are below the reach. A fourth is not: it uses up the third stage's distance of 4 times 1, until it takes a state again.
#[test]
fn a_life(rt: HostRuntime) -> Result<(), Fail> {
    let mut bytes = [0; 32];
    let mut medium = Packed {
        bytes: &mut bytes,
        pages: 2,
        breadth: 64,
    };
    let mut memory = Memory {
        medium: &mut medium,
        code: small_pile()?,
    };
    let first = [0xde, 0xad, 0xbe, 0xef];
    let second = [1, 2, 3, 4];
    let calls = [
        Call::Write {
            page: 1,
            payload: &first,
        },
        Call::Wear {
            page: 1,
            cell: 0,
            state: 2,
        },
        Call::Wear {
            page: 1,
            cell: 9,
            state: 2,
        },
        Call::Wear {
            page: 1,
            cell: 18,
            state: 2,
        },
        Call::Read { page: 1 },
        Call::Patrol { page: 1 },
        Call::Wear {
            page: 1,
            cell: 27,
            state: 2,
        },
        Call::Read { page: 1 },
        Call::Patrol { page: 1 },
        Call::Wear {
            page: 1,
            cell: 27,
            state: 0,
        },
        Call::Write {
            page: 1,
            payload: &second,
        },
        Call::Read { page: 1 },
    ];
    let mut answers = [Ok(9); 12];
    let mut payloads = [7; 48];
    assert_eq!(rt;
        live(&mut memory, &calls, &mut answers, &mut payloads),
        Ok(())
    );
    let none = Err(refused(Kind::NoCodeword, Layer::Code, 3, 1));
    let expected = [
        Ok(0),
        Ok(0),
        Ok(0),
        Ok(0),
        Ok(3),
        Ok(3),
        Ok(0),
        none,
        none,
        Ok(0),
        Ok(3),
        Ok(3),
    ];
    let mut filled = [7; 48];
    filled[16..20].copy_from_slice(&first);
    filled[44..48].copy_from_slice(&second);
    assert!(rt; answers == expected);
    assert!(rt; payloads == filled);
    Ok(())
}

// A call that is refused changes nothing, and the next one is done.
#[test]
fn refused_calls(rt: HostRuntime) -> Result<(), Fail> {
    let mut bytes = [0; 32];
    let mut medium = Packed {
        bytes: &mut bytes,
        pages: 2,
        breadth: 64,
    };
    let mut memory = Memory {
        medium: &mut medium,
        code: small_pile()?,
    };
    let calls = [
        Call::Write {
            page: 0,
            payload: &[1, 2, 3],
        },
        Call::Wear {
            page: 1,
            cell: 64,
            state: 0,
        },
        Call::Read { page: 2 },
        Call::Read { page: 0 },
    ];
    let mut answers = [Ok(9); 4];
    let mut payloads = [7; 16];
    assert_eq!(rt;
        live(&mut memory, &calls, &mut answers, &mut payloads),
        Ok(())
    );
    let short = refused(Kind::WrongLength, Layer::Memory, 3, 0);
    let outside = refused(Kind::CellOutOfRange, Layer::Medium, 64, 1);
    let beyond = refused(Kind::PageOutOfRange, Layer::Medium, 2, 2);
    assert!(rt; answers == [Err(short), Err(outside), Err(beyond), Ok(0)]);
    assert!(rt; payloads == [7, 7, 7, 7, 7, 7, 7, 7, 7, 7, 7, 7, 0, 0, 0, 0]);
    Ok(())
}

// Answers are counted before payloads, and a memory that is not joined comes before both.
#[test]
fn refused_room(rt: HostRuntime) -> Result<(), Fail> {
    let mut bytes = [0; 32];
    let mut medium = Packed {
        bytes: &mut bytes,
        pages: 2,
        breadth: 64,
    };
    let mut memory = Memory {
        medium: &mut medium,
        code: small_pile()?,
    };
    let calls = [Call::Read { page: 0 }];
    let mut two = [Ok(9); 2];
    let mut one = [Ok(9)];
    let mut payloads = [7; 3];
    let answers = Fault::new(Kind::WrongLength, Layer::Memory, 2);
    assert_eq!(rt;
        live(&mut memory, &calls, &mut two, &mut payloads),
        Err(answers)
    );
    let short = Fault::new(Kind::WrongLength, Layer::Memory, 3);
    assert_eq!(rt;
        live(&mut memory, &calls, &mut one, &mut payloads),
        Err(short)
    );
    memory.medium.breadth = 63;
    let unfit = Fault::new(Kind::UnfitMemory, Layer::Memory, 0);
    assert_eq!(rt;
        live(&mut memory, &calls, &mut two, &mut payloads),
        Err(unfit)
    );
    assert!(rt; two == [Ok(9), Ok(9)]);
    assert!(rt; one == [Ok(9)]);
    assert!(rt; payloads == [7, 7, 7]);
    Ok(())
}
