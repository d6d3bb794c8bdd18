// A code that is lent is a code, so that who has a reference to one may hand it on.
use crate::code::Code;
use words::fault::Fault;

impl<C: Code> Code for &C {
    ghost model = { λ c. C.Code.model c.now };

    ghost refusal = { λ c. C.Code.refusal c.now };

    ghost lawful = { λ c s. C.Code.lawful c.now s };

    fn check(&self) -> Result<(), Fault> {
        (**self).check()
    }

    fn width(&self) -> usize {
        (**self).width()
    }

    fn len(&self) -> usize {
        (**self).len()
    }

    fn message_len(&self) -> usize {
        (**self).message_len()
    }

    fn distance(&self) -> usize {
        (**self).distance()
    }

    fn encode(&self, message: &[u8], word: &mut [u8]) -> Result<(), Fault> {
        (**self).encode(message, word)
    }

    fn message_of(&self, word: &[u8], message: &mut [u8]) -> Result<(), Fault> {
        (**self).message_of(word, message)
    }

    fn correct(&self, word: &mut [u8], marks: &[u8]) -> Result<usize, Fault> {
        (**self).correct(word, marks)
    }
}
