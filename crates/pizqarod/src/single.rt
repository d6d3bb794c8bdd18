// Single words of a recipe: encoded, damaged, and decoded stage by stage.

use crate::cells::{Columns, Word, breadth_of};
use crate::failure::Failure;
use crate::refusal::Refusal;
use crate::watch::Watch;
use codes::code::Code;
use recipe_piles::making::{parts_of, pile_of};
use recipe_piles::parts::{Parts, RecipePile};
use recipes::recipe::Recipe;
use std::alloc::Global;
use words::fault::Kind;

/// The codeword of a message, a column behind the other.
pub(crate) fn encode(heap: Global, recipe: &Recipe, message: &str) -> Result<String, Failure> {
    let message = Word::parse_bits(heap, message)?;
    let pile = pile_of(recipe)?;
    let mut cells = vec![in heap; 0; pile.len()]?;
    pile.encode(message.as_slice(), &mut cells)?;
    let marks = vec![in heap; 0; pile.len()]?;
    let columns = Columns {
        cells: cells.as_slice(),
        marks: marks.as_slice(),
        breadth: breadth_of(recipe)?,
    };
    Ok(format!(in heap; "{columns}\n")?)
}

/// A word of a recipe with some of its cells turned over or made blank.
pub(crate) fn damage(
    heap: Global,
    recipe: &Recipe,
    word: &str,
    changes: &[&str],
) -> Result<String, Failure> {
    let mut word = Word::parse(heap, word)?;
    for change in changes {
        if word.damage(change).is_none() {
            return Err(Failure::NoChange(String::from_str(heap, change)?));
        }
    }
    let columns = Columns {
        cells: word.cells.as_slice(),
        marks: word.marks.as_slice(),
        breadth: breadth_of(recipe)?,
    };
    Ok(format!(in heap; "{columns}\n")?)
}

// What each stage makes of a word of the pile's length, as far as the first that has no choice.
fn watch(heap: Global, parts: &Parts, word: &Word) -> Result<String, Failure> {
    let mut text = String::new(heap);
    let mut watch = Watch::new(heap, parts, word);
    for code in parts.codes() {
        let watched = watch.next(code)?;
        write!(text, "{watched}")?;
        if !watched.has_choice() {
            break;
        }
    }
    Ok(text)
}

// A codeword of a pile, with the breadth of its columns, and its message.
fn corrected(
    heap: Global,
    pile: &RecipePile,
    cells: &[u8],
    breadth: usize,
) -> Result<String, Failure> {
    let mut message = vec![in heap; 0; pile.message_len()]?;
    pile.message_of(cells, &mut message)?;
    let marks = vec![in heap; 0; pile.len()]?;
    let word = Columns {
        cells,
        marks: marks.as_slice(),
        breadth,
    };
    // A message is shown byte by byte.
    let message = Columns {
        cells: message.as_slice(),
        marks: marks.as_slice(),
        breadth: 8,
    };
    Ok(format!(in heap; "word: {word}\nmessage: {message}\n")?)
}

/// The stages of a word's correction, and the answer: the harm, the codeword and its message, or the refusal.
pub(crate) fn decode(heap: Global, recipe: &Recipe, word: &str) -> Result<String, Failure> {
    let word = Word::parse(heap, word)?;
    let pile = pile_of(recipe)?;
    let mut cells = Vec::from_slice(heap, word.cells.as_slice())?;
    let answer = pile.correct(&mut cells, word.marks.as_slice());
    if let Err(fault) = answer
        && fault.kind != Kind::NoCodeword
    {
        return Err(Failure::from(fault));
    }
    let watched = watch(heap, &parts_of(recipe)?, &word)?;
    match answer {
        Err(fault) => {
            let refusal = Refusal(fault);
            Ok(format!(in heap; "{watched}{refusal}\n")?)
        }
        Ok(harm) => {
            let reach = pile.distance();
            let told = corrected(heap, &pile, cells.as_slice(), breadth_of(recipe)?)?;
            Ok(format!(in heap;
                "{watched}corrected, with harm {harm} below the reach {reach}\n{told}"
            )?)
        }
    }
}

#[cfg(test)]
mod tests {
    use super::*;
    use std::test::Fail;
    use words::fault::{Fault, Layer};

    // Four columns of two cells. The word of the labels a, b is b and then a + b. Stage 1 repeats one bit over inner distance 1, stage 2
    // is open over inner distance 2, so that the reach is the lesser of 4 and 2.
    const RECIPE: [u8; 9] = [0x11, 0, 4, 2, 0, 1, 0, 0, 4];

    // Labels 1 and, column by column, 0 1 1 0.
    #[test]
    fn a_message_is_encoded(rt: HostRuntime) -> Result<(), Fail> {
        let word = encode(rt.alloc(), &Recipe::read(&RECIPE)?, "1 0110")?;
        assert!(rt; word.as_str() == "01 10 10 01\n");
        Ok(())
    }

    #[test]
    fn cells_are_damaged(rt: HostRuntime) -> Result<(), Fail> {
        let heap = rt.alloc();
        let recipe = Recipe::read(&RECIPE)?;
        let word = damage(heap, &recipe, "01 10 10 01", &["0", "7?"])?;
        assert!(rt; word.as_str() == "11 10 10 0?\n");
        let refused = damage(heap, &recipe, "01 10 10 01", &["8"]);
        assert!(rt; matches!(refused, Err(Failure::NoChange(_))));
        Ok(())
    }

    // A blank cell hides stage 1 of its column, which counts 1, and stands one away from the row that stage 2 sees.
    #[test]
    fn a_blank_is_undone(rt: HostRuntime) -> Result<(), Fail> {
        let told = decode(rt.alloc(), &Recipe::read(&RECIPE)?, "0? 10 10 01")?;
        let expected = "stage 1, distances 1 and 4
  estimates, as label/harm: - 1/0 1/0 1/0
  choice: 1 1 1 1, score 1
stage 2, distances 2 and 1
  estimates, as label/harm: 0/1 1/0 1/0 0/0
  choice: 0 1 1 0, score 1
corrected, with harm 1 below the reach 2
word: 01 10 10 01
message: 10110
";
        assert!(rt; told.as_str() == expected);
        Ok(())
    }

    // Both words of stage 2 are two away from a column with a cell turned over.
    #[test]
    fn a_flip_is_refused(rt: HostRuntime) -> Result<(), Fail> {
        let told = decode(rt.alloc(), &Recipe::read(&RECIPE)?, "11 10 10 01")?;
        let expected = "stage 1, distances 1 and 4
  estimates, as label/harm: 0/0 1/0 1/0 1/0
  choice: 1 1 1 1, score 2
stage 2, distances 2 and 1
  estimates, as label/harm: - 1/0 1/0 0/0
  no choice
refused 12 (code, stage 2): no codeword near enough
";
        assert!(rt; told.as_str() == expected);
        Ok(())
    }

    #[test]
    fn other_texts_are_refused(rt: HostRuntime) -> Result<(), Fail> {
        let heap = rt.alloc();
        let recipe = Recipe::read(&RECIPE)?;
        let blank = encode(heap, &recipe, "1 011?");
        assert!(rt; matches!(blank, Err(Failure::NotACell('?'))));
        let letter = decode(heap, &recipe, "01 10 1x 01");
        assert!(rt; matches!(letter, Err(Failure::NotACell('x'))));
        let short = decode(heap, &recipe, "01");
        let length = Fault::new(Kind::WrongLength, Layer::Code, 2);
        assert!(rt; matches!(short, Err(Failure::Refused(Refusal(fault))) if fault == length));
        Ok(())
    }
}
