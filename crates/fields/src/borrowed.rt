// A field that is lent is a field, so that who has a reference to one may hand it on.
use crate::field::Field;
use words::fault::Fault;

impl<F: Field> Field for &F {
    ghost model = { λ f. F.Field.model f.now };

    ghost refusal = { λ f. F.Field.refusal f.now };

    ghost lawful = { λ f s. F.Field.lawful f.now s };

    ghost one_fault = { λ f e due. F.Field.one_fault f.now e due };

    fn check(&self) -> Result<(), Fault> {
        (**self).check()
    }

    fn width(&self) -> u8 {
        (**self).width()
    }

    fn sum(&self, a: u8, b: u8) -> Result<u8, Fault> {
        (**self).sum(a, b)
    }

    fn product(&self, a: u8, b: u8) -> Result<u8, Fault> {
        (**self).product(a, b)
    }

    fn inverse(&self, a: u8) -> Result<Option<u8>, Fault> {
        (**self).inverse(a)
    }
}
