use crate::arithmetic::{Products, Rule};
use crate::decoder::{Decoder, Reading};
use std::test::Fail;

// The word of 1 + x over the field of 256 elements, which has the symbol 1 + x at each place x, and 44 symbols more that are not looked at.
// One place is blank and two are wrong, a harm of 5. With 298 symbols to spare the equations have 299 unknowns.
#[test]
fn a_word_of_more_symbols_than_places(rt: HostRuntime) -> Result<(), Fail> {
    let products = Products::new(Rule::polynomial(8));
    let decoder = Decoder {
        alloc: rt.alloc(),
        products: &products,
    };
    let mut word = [7; 300];
    let mut marks = [0; 300];
    for (x, symbol) in (0..=255).zip(word.iter_mut()) {
        *symbol = x ^ 1;
    }
    word[3] ^= 9;
    word[5] = 0;
    marks[5] = 1;
    word[200] ^= 1;
    let Some((harm, codeword)) = decoder.decode(2, &word, &marks)? else {
        return Err(Fail::new("a codeword"));
    };
    assert_eq!(rt; harm, 5);
    assert_eq!(rt; codeword.len(), 256);
    assert!(rt;
        (0..=255)
            .zip(codeword.iter())
            .all(|(x, symbol)| *symbol == x ^ 1)
    );
    Ok(())
}

// No word of three symbols has a message of 300.
#[test]
fn a_message_longer_than_any_word(rt: HostRuntime) -> Result<(), Fail> {
    let products = Products::new(Rule::polynomial(8));
    let decoder = Decoder {
        alloc: rt.alloc(),
        products: &products,
    };
    assert!(rt; decoder.decode(300, &[1, 2, 3], &[0; 3])?.is_none());
    Ok(())
}

// Through as many readings as there are places, the polynomial has just their symbols.
#[test]
fn a_reading_of_each_place(rt: HostRuntime) -> Result<(), Fail> {
    let products = Products::new(Rule::polynomial(8));
    let decoder = Decoder {
        alloc: rt.alloc(),
        products: &products,
    };
    let mut readings = [Reading {
        place: 0,
        symbol: 0,
    }; 256];
    for (place, reading) in (0..=255).zip(readings.iter_mut()) {
        *reading = Reading {
            place,
            symbol: place ^ 1,
        };
    }
    readings[7].symbol = 200;
    let Some(values) = decoder.interpolate(256, 256, &readings)? else {
        return Err(Fail::new("a polynomial"));
    };
    assert_eq!(rt; values.len(), 256);
    assert!(rt;
        readings
            .iter()
            .zip(values.iter())
            .all(|(reading, value)| reading.symbol == *value)
    );
    Ok(())
}

// x · (x + 1) · (x + 2), where x is 3: 3 · 2 · 1 is 6.
#[test]
fn one_reading_more_than_places(rt: HostRuntime) -> Result<(), Fail> {
    let products = Products::new(Rule::polynomial(8));
    let decoder = Decoder {
        alloc: rt.alloc(),
        products: &products,
    };
    let mut readings = [Reading {
        place: 2,
        symbol: 5,
    }; 257];
    for (place, reading) in [0, 1].into_iter().zip(readings.iter_mut()) {
        reading.place = place;
    }
    let Some(values) = decoder.interpolate(257, 4, &readings)? else {
        return Err(Fail::new("a polynomial"));
    };
    assert!(rt; values.as_slice() == [0, 0, 0, 6].as_slice());
    assert!(rt; decoder.interpolate(258, 4, &readings)?.is_none());
    Ok(())
}

// Over the field of four elements 4 is reduced to 3, so that all readings share the place 3, and x + 3 is 3, 2, 1, 0.
#[test]
fn places_that_are_no_elements(rt: HostRuntime) -> Result<(), Fail> {
    let products = Products::new(Rule::polynomial(2));
    let decoder = Decoder {
        alloc: rt.alloc(),
        products: &products,
    };
    let mut readings = [Reading {
        place: 4,
        symbol: 1,
    }; 257];
    readings[0].place = 3;
    let Some(values) = decoder.interpolate(257, 4, &readings)? else {
        return Err(Fail::new("a polynomial"));
    };
    assert!(rt; values.as_slice() == [3, 2, 1, 0].as_slice());
    Ok(())
}
