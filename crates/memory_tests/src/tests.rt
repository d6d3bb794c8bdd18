use crate::faults::refused;
use codes::open::Open;
use codes::repetition::Repetition;
use media::medium::Medium;
use media::packed::Packed;
use memories::memory::Memory;
use std::test::Fail;
use words::fault::{Fault, Kind, Layer};

// Ten cells in four bytes: the row of values, then the row of marks.
#[test]
fn packed_bytes(rt: HostRuntime) {
    let mut bytes = [0xa0, 0x40, 0x08, 0x00];
    let mut cells = [9; 10];
    let mut marks = [9; 10];
    let mut medium = Packed {
        bytes: &mut bytes,
        pages: 1,
        breadth: 10,
    };
    assert_eq!(rt; medium.fetch(0, &mut cells, &mut marks), Ok(()));
    assert_eq!(rt; cells, [1, 0, 1, 0, 0, 0, 0, 0, 0, 1]);
    assert_eq!(rt; marks, [0, 0, 0, 0, 1, 0, 0, 0, 0, 0]);
    assert_eq!(rt; medium.put(0, &[1; 10]), Ok(()));
    assert_eq!(rt; medium.wear(0, 0, 2), Ok(()));
    assert_eq!(rt; bytes, [0xf7, 0xc0, 0x88, 0x00]);
}

// Ten bits carry a byte and leave two spare bits.
#[test]
fn spare_bits(rt: HostRuntime) -> Result<(), Fail> {
    let mut bytes = [0; 8];
    let mut medium = Packed {
        bytes: &mut bytes,
        pages: 2,
        breadth: 10,
    };
    let mut memory = Memory {
        medium: &mut medium,
        code: Open::new(1, 10)?,
    };
    let mut payload = [0];
    assert_eq!(rt; memory.write(1, &[0xa5]), Ok(0));
    assert_eq!(rt; memory.read(1, &mut payload), Ok(0));
    assert_eq!(rt; payload, [0xa5]);
    assert_eq!(rt; memory.wear(1, 9, 1), Ok(()));
    let spare = refused(Kind::SpareBitSet, Layer::Memory, 9, 1);
    assert_eq!(rt; memory.read(1, &mut payload), Err(spare));
    assert_eq!(rt; memory.patrol(1), Err(spare));
    assert_eq!(rt; memory.wear(1, 9, 2), Ok(()));
    let none = refused(Kind::NoCodeword, Layer::Code, 0, 1);
    assert_eq!(rt; memory.patrol(1), Err(none));
    assert_eq!(rt; memory.write(1, &[0x5a]), Ok(1));
    Ok(())
}

// A code that does not fit names no page, and a medium that is not sound names that of the call.
#[test]
fn unfit(rt: HostRuntime) -> Result<(), Fail> {
    let mut bytes = [0; 8];
    let mut medium = Packed {
        bytes: &mut bytes,
        pages: 2,
        breadth: 10,
    };
    let mut memory = Memory {
        medium: &mut medium,
        code: Repetition::new(1, 10)?,
    };
    let unfit = Fault::new(Kind::UnfitMemory, Layer::Memory, 0);
    assert_eq!(rt; memory.patrol(0), Err(unfit));
    memory.medium.breadth = 17;
    let short = refused(Kind::UnfitMedium, Layer::Medium, 8, 1);
    assert_eq!(rt; memory.patrol(1), Err(short));
    let whole = Fault::new(Kind::UnfitMedium, Layer::Medium, 8);
    assert_eq!(rt; memory.check_join(), Err(whole));
    Ok(())
}

// A memory over a code that it is lent.
#[test]
fn a_lent_code(rt: HostRuntime) -> Result<(), Fail> {
    let mut bytes = [0; 8];
    let mut medium = Packed {
        bytes: &mut bytes,
        pages: 2,
        breadth: 10,
    };
    let code = Open::new(1, 10)?;
    let mut memory = Memory {
        medium: &mut medium,
        code: &code,
    };
    let mut payload = [0];
    assert_eq!(rt; memory.write(0, &[0x3c]), Ok(0));
    assert_eq!(rt; memory.read(0, &mut payload), Ok(0));
    assert_eq!(rt; payload, [0x3c]);
    Ok(())
}
