// A life over one kind of code after another, on the grid and on packed cells.
use chains::even::Even;
use codes::code::Code;
use codes::open::Open;
use codes::repetition::Repetition;
use either::Either;
use fields::polynomial::Polynomial;
use lives::call::{Answer, Call};
use lives::life::live;
use media::grid::Grid;
use media::medium::Medium;
use media::packed::Packed;
use memories::memory::Memory;
use piles::pile::Pile;
use reed_solomon::code::ReedSolomon;
use std::test::Fail;
use words::fault::{Fault, Kind, Layer};

// What a life answers, and what it leaves in the room of each call.
#[derive(Clone, Copy, PartialEq, Eq)]
struct Lived {
    done: Result<(), Fault>,
    answers: [Answer; 5],
    payloads: [u8; 5],
}

// A byte is written, three cells go blank, and the byte is read.
fn live_on<M: Medium, C: Code>(medium: &mut M, code: &C) -> Lived {
    let blank = |cell| Call::Wear {
        page: 0,
        cell,
        state: 2,
    };
    let calls = [
        Call::Write {
            page: 0,
            payload: &[0x5c],
        },
        blank(3),
        blank(20),
        blank(31),
        Call::Read { page: 0 },
    ];
    let mut answers = [Ok(9); 5];
    let mut payloads = [7; 5];
    let mut memory = Memory { medium, code };
    let done = live(&mut memory, &calls, &mut answers, &mut payloads);
    Lived {
        done,
        answers,
        payloads,
    }
}

// The page holds no byte, so that no call is done.
fn refused_life() -> Lived {
    Lived {
        done: Err(Fault::new(Kind::UnfitMemory, Layer::Memory, 0)),
        answers: [Ok(9); 5],
        payloads: [7; 5],
    }
}

// 32 cells, a message of 2 + 9 bits and reach 4: each stage's code is a pile of 16 cells, at distance 8 and then at 2.
fn pile_of_piles() -> Result<Pile<Even, Pile<Even, Either<Open, Repetition>>>, Fault> {
    let once = Either::Right(Repetition::new(1, 8)?);
    let strong = Pile::new(Even::new(2)?, &[once, once])?;
    let weak = Pile::new(Even::new(2)?, &[once, Either::Left(Open::new(1, 8)?)])?;
    Pile::new(Even::new(2)?, &[strong, weak])
}

#[test]
fn a_repetition_holds_no_byte(rt: HostRuntime) -> Result<(), Fail> {
    let code = Repetition::new(1, 8)?;
    let mut bytes = [0; 8];
    let mut grid = Grid {
        bytes: &mut bytes,
        pages: 1,
        breadth: 8,
    };
    assert!(rt; live_on(&mut grid, &code) == refused_life());
    assert!(rt; bytes == [0; 8]);
    let mut bytes = [0; 2];
    let mut packed = Packed {
        bytes: &mut bytes,
        pages: 1,
        breadth: 8,
    };
    assert!(rt; live_on(&mut packed, &code) == refused_life());
    assert!(rt; bytes == [0; 2]);
    Ok(())
}

// Of width 1 the field has two elements, so that a codeword has two symbols at most.
#[test]
fn reed_solomon_of_width_1_holds_no_byte(rt: HostRuntime) -> Result<(), Fail> {
    let code = ReedSolomon::new(Polynomial::new(1)?, 2, 2)?;
    let mut bytes = [0; 2];
    let mut grid = Grid {
        bytes: &mut bytes,
        pages: 1,
        breadth: 2,
    };
    assert!(rt; live_on(&mut grid, &code) == refused_life());
    assert!(rt; bytes == [0; 2]);
    let mut packed = Packed {
        bytes: &mut bytes,
        pages: 1,
        breadth: 2,
    };
    assert!(rt; live_on(&mut packed, &code) == refused_life());
    assert!(rt; bytes == [0; 2]);
    Ok(())
}

#[test]
fn a_pile_of_piles_brings_its_byte_back(rt: HostRuntime) -> Result<(), Fail> {
    let code = pile_of_piles()?;
    let whole = Lived {
        done: Ok(()),
        answers: [Ok(0), Ok(0), Ok(0), Ok(0), Ok(3)],
        payloads: [7, 7, 7, 7, 0x5c],
    };
    let mut bytes = [0; 32];
    let mut grid = Grid {
        bytes: &mut bytes,
        pages: 1,
        breadth: 32,
    };
    assert!(rt; live_on(&mut grid, &code) == whole);
    let mut bytes = [0; 8];
    let mut packed = Packed {
        bytes: &mut bytes,
        pages: 1,
        breadth: 32,
    };
    assert!(rt; live_on(&mut packed, &code) == whole);
    Ok(())
}
