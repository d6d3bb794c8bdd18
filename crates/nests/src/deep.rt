// A pile twelve levels deep. Each level has twice the cells of the one below, so that no sound pile goes deeper.
use crate::levels::{before_open, behind_repetition, innermost};
use codes::code::{Code, correct_word};
use words::fault::Fault;

/// A call of a code, with the buffers that it reads and writes.
#[derive(Drop)]
pub enum Errand<'r, 'w> {
    Encode {
        message: &'r [u8],
        word: &'w mut [u8],
    },
    Correct {
        word: &'w mut [u8],
        marks: &'r [u8],
    },
    Recover {
        word: &'r [u8],
        message: &'w mut [u8],
    },
}

// The answer of correct is the harm; of the other two it is 0.
fn run<C: Code>(code: &C, errand: Errand<'_, '_>) -> Result<usize, Fault> {
    match errand {
        Errand::Encode { message, word } => code.encode(message, word).map(|()| 0),
        Errand::Correct { word, marks } => correct_word(code, word, marks),
        Errand::Recover { word, message } => code.message_of(word, message).map(|()| 0),
    }
}

// Two levels more, each over the one below. A function for every two, so that a proof sees two and not twelve.
fn from_eleven<C: Code>(below: &C, errand: Errand<'_, '_>) -> Result<usize, Fault> {
    let eleven = behind_repetition(below)?;
    let twelve = behind_repetition(&eleven)?;
    run(&twelve, errand)
}

fn from_nine<C: Code>(below: &C, errand: Errand<'_, '_>) -> Result<usize, Fault> {
    let nine = behind_repetition(below)?;
    let ten = behind_repetition(&nine)?;
    from_eleven(&ten, errand)
}

fn from_seven<C: Code>(below: &C, errand: Errand<'_, '_>) -> Result<usize, Fault> {
    let seven = behind_repetition(below)?;
    let eight = behind_repetition(&seven)?;
    from_nine(&eight, errand)
}

fn from_five<C: Code>(below: &C, errand: Errand<'_, '_>) -> Result<usize, Fault> {
    let five = behind_repetition(below)?;
    let six = behind_repetition(&five)?;
    from_seven(&six, errand)
}

fn from_three<C: Code>(below: &C, errand: Errand<'_, '_>) -> Result<usize, Fault> {
    let three = behind_repetition(below)?;
    let four = behind_repetition(&three)?;
    from_five(&four, errand)
}

/// Runs an errand on the pile of twelve levels: 4,096 cells, 14 message bits, reach 1,024.
pub fn through_twelve(errand: Errand<'_, '_>) -> Result<usize, Fault> {
    let one = innermost()?;
    let two = before_open(&one)?;
    from_three(&two, errand)
}
