use crate::deep::{Errand, through_twelve};
use crate::levels::{before_open, behind_repetition, innermost};
use codes::code::{Code, correct_word};
use std::test::Fail;
use words::fault::{Fault, Kind, Layer};

// A level's column has the labels a and b in its stages and the cells b and a + b, modulo 2. So three levels with repetition in front give a message
// w v a b the cells b, w + b, v + b, w + v + b, a + b, w + a + b, v + a + b, w + v + a + b: the message 1 0 1 0 has
// 0 1 0 1 1 0 1 0. Their reach is 4.
#[test]
fn three_levels(rt: HostRuntime) -> Result<(), Fail> {
    let one = innermost()?;
    let two = behind_repetition(&one)?;
    let three = behind_repetition(&two)?;
    let mut word = [0; 8];
    let mut marks = [0; 8];
    three.encode(&[1, 0, 1, 0], &mut word)?;
    assert!(rt; word == [0, 1, 0, 1, 1, 0, 1, 0]);
    word = [0, 1, 1, 1, 1, 0, 1, 0];
    marks[5] = 1;
    assert_eq!(rt; correct_word(&three, &mut word, &marks)?, 3);
    assert!(rt; word == [0, 1, 0, 1, 1, 0, 1, 0]);
    let mut message = [0; 4];
    three.message_of(&word, &mut message)?;
    assert!(rt; message == [1, 0, 1, 0]);
    // Two wrong cells of column 0: stage 1 is 1 1 1 1, and stage 2 has the labels 1 0 1 1, two places from any codeword's scores.
    word = [1, 0, 0, 1, 1, 0, 1, 0];
    marks[5] = 0;
    let none = Fault::new(Kind::NoCodeword, Layer::Code, 2);
    assert_eq!(rt; correct_word(&three, &mut word, &marks), Err(none));
    assert!(rt; word == [1, 0, 0, 1, 1, 0, 1, 0]);
    Ok(())
}

// With open behind the innermost level the message m1 m2 m3 m4 has the cells m3, m2 + m3, m4, m1 + m2 + m4: of 1 1 0 1 they are
// 0 1 1 1. Repetition in front, with the symbol 1, turns every other cell of each of these twice.
#[test]
fn open_beside(rt: HostRuntime) -> Result<(), Fail> {
    let one = innermost()?;
    let two = before_open(&one)?;
    let three = behind_repetition(&two)?;
    let mut word = [0; 8];
    let mut marks = [0; 8];
    three.encode(&[1, 1, 1, 0, 1], &mut word)?;
    assert!(rt; word == [0, 1, 1, 0, 1, 0, 1, 0]);
    word[3] = 1;
    marks[3] = 1;
    assert_eq!(rt; correct_word(&three, &mut word, &marks)?, 1);
    assert!(rt; word == [0, 1, 1, 0, 1, 0, 1, 0]);
    Ok(())
}

// The ten levels with repetition add, to the four cells above, w0 to each cell of odd number, w1 where bit 1 of the number is 1, and so on:
// w0 to w9 are 1 0 1 1 0 0 1 0 1 1, which spells 845 from the lowest bit on. 500 wrong cells and 23 blank ones have harm 1,023.
#[test]
fn twelve_levels(rt: HostRuntime) -> Result<(), Fail> {
    let sent = [1, 0, 1, 1, 0, 0, 1, 0, 1, 1, 1, 1, 0, 1];
    let mut word = [0; 4096];
    through_twelve(Errand::Encode {
        message: &sent,
        word: &mut word,
    })?;
    let codeword = word;
    let inner = [0, 1, 1, 1];
    for (p, cell) in codeword.iter().enumerate() {
        assert_eq!(rt;
            u32::from(*cell),
            (inner[p / 1024 % 4] + (p as u32 & 845).count_ones()) % 2
        );
    }
    let mut marks = [0; 4096];
    for k in 0..500 {
        word[4 * k] = 1 - word[4 * k].min(1);
    }
    for k in 0..23 {
        marks[4 * k + 1] = 1;
    }
    let harm = through_twelve(Errand::Correct {
        word: &mut word,
        marks: &marks,
    })?;
    assert_eq!(rt; harm, 1023);
    assert!(rt; word == codeword);
    let mut message = [0; 14];
    through_twelve(Errand::Recover {
        word: &word,
        message: &mut message,
    })?;
    assert!(rt; message == sent);
    Ok(())
}
