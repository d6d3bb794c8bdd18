use crate::making::pile_of;
use chains::reed_muller::ReedMuller;
use codes::code::{Code, correct_word};
use codes::open::Open;
use either::Either;
use piles::pile::Pile;
use recipes::recipe::Recipe;
use std::test::Fail;
use words::fault::{Fault, Kind, Layer};

// Eight columns of a Reed-Muller chain of eight cells: 64 cells, 45 message bits, reach 8.
const RECIPE: [u8; 15] = [0x13, 0, 8, 2, 0, 1, 1, 0, 5, 1, 0, 7, 0, 0, 8];

// Three flipped cells and a blank one have harm 7, and a fourth flip has 9.
#[test]
fn a_recipe_corrects_its_pages(rt: HostRuntime) -> Result<(), Fail> {
    let pile = pile_of(&Recipe::read(&RECIPE)?)?;
    let mut word = [0; 64];
    let mut marks = [0; 64];
    pile.encode(&[1; 45], &mut word)?;
    let sent = word;
    for p in [0, 9, 18] {
        word[p] = 1 - word[p].min(1);
    }
    marks[27] = 1;
    assert_eq!(rt; correct_word(&pile, &mut word, &marks)?, 7);
    assert!(rt; word == sent);
    let mut message = [0; 45];
    pile.message_of(&word, &mut message)?;
    assert!(rt; message == [1; 45]);
    Ok(())
}

// A pile as the first stage of another, over a chain of two cells: the reach is the lesser of 1 times 8 and 2 times 1.
#[test]
fn a_pile_stands_in_another(rt: HostRuntime) -> Result<(), Fail> {
    let inner = pile_of(&Recipe::read(&RECIPE)?)?;
    let stages = [Either::Left(inner), Either::Right(Open::new(1, 64)?)];
    let pile = Pile::new(ReedMuller::new(1)?, &stages)?;
    assert_eq!(rt; pile.len(), 128);
    assert_eq!(rt; pile.message_len(), 109);
    assert_eq!(rt; pile.distance(), 2);
    let mut word = [0; 128];
    let mut marks = [0; 128];
    pile.encode(&[1; 109], &mut word)?;
    let sent = word;
    marks[5] = 1;
    assert_eq!(rt; correct_word(&pile, &mut word, &marks)?, 1);
    assert!(rt; word == sent);
    marks[4] = 1;
    let none = Fault::new(Kind::NoCodeword, Layer::Code, 2);
    assert_eq!(rt; correct_word(&pile, &mut word, &marks), Err(none));
    Ok(())
}
