// The refusals of a field.
ghost use Rattle.std.specs.Prelude.{◌≡◌, cond, Ok, Err, nat_lt};
ghost use Rattle.fields.specs.Answers.{unlawful, too_large, of_one, of_two};

use words::fault::{Fault, Kind, Layer};

/// No lawful field.
pub(crate) fn no_field() -> Fault
    ensures { result ≡ unlawful }
{
    Fault::new(Kind::UnlawfulField, Layer::Field, 0)
}

/// Ok if the operand at a place is one of `size` elements.
fn operand(size: usize, x: u8, place: usize) -> Result<(), Fault>
    ensures { result ≡ cond (nat_lt x size) (Ok tt) (Err (too_large place)) }
{
    if usize::from(x) >= size {
        return Err(Fault::new(Kind::TooLarge, Layer::Field, place));
    }
    Ok(())
}

/// Ok if the operand is one of `size` elements.
pub(crate) fn element(size: usize, a: u8) -> Result<(), Fault>
    ensures { result ≡ of_one size a tt }
{
    operand(size, a, 0)
}

/// Ok if both operands are among `size` elements; operand 0 is looked at first.
pub(crate) fn elements(size: usize, a: u8, b: u8) -> Result<(), Fault>
    ensures { result ≡ of_two size a b tt }
{
    operand(size, a, 0)?;
    operand(size, b, 1)
}
