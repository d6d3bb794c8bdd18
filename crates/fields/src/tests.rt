use crate::field::Field;
use crate::polynomial::Polynomial;
use crate::worked::{examples, recipe_extension, refused_example};
use std::test::Fail;

#[test]
fn worked_examples(rt: HostRuntime) -> Result<(), Fail> {
    let [three, eight, extended] = examples()?;
    assert!(rt; three == 1 && eight == 1 && extended == 24);
    assert!(rt; refused_example().is_err());
    Ok(())
}

#[test]
fn second_operand_too_large(rt: HostRuntime) -> Result<(), Fail> {
    match Polynomial::new(3)?.product(7, 8) {
        Ok(_) => Err(Fail::new("answered")),
        Err(fault) => {
            assert!(rt; fault.number() == 11 && fault.place == 1);
            Ok(())
        },
    }
}

#[test]
fn inverses_in_the_extension(rt: HostRuntime) -> Result<(), Fail> {
    let field = recipe_extension(8)?;
    for a in 1..=255u8 {
        if let Some(b) = field.inverse(a)? {
            assert!(rt; field.product(a, b)? == 1);
        }
    }
    assert!(rt; field.inverse(0)?.is_none());
    Ok(())
}
