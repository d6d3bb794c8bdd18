// A code of one of two types is a code. Taken again and again, and with piles among the two, it mixes any kinds under one type.
ghost use Rattle.codes.specs.Either.{either_model, either_refusal, either_lawful};

use crate::code::Code;
use either::{Either, for_both};
use words::fault::Fault;

impl<A: Code, B: Code> Code for Either<A, B> {
    ghost model = { either_model A.Code.model B.Code.model };

    ghost refusal = { either_refusal A.Code.refusal B.Code.refusal };

    ghost lawful = { either_lawful A.Code.model B.Code.model A.Code.refusal B.Code.refusal A.Code.lawful B.Code.lawful };

    fn check(&self) -> Result<(), Fault> {
        for_both!(self, code => code.check())
    }

    fn width(&self) -> usize {
        for_both!(self, code => code.width())
    }

    fn len(&self) -> usize {
        for_both!(self, code => code.len())
    }

    fn message_len(&self) -> usize {
        for_both!(self, code => code.message_len())
    }

    fn distance(&self) -> usize {
        for_both!(self, code => code.distance())
    }

    fn encode(&self, message: &[u8], word: &mut [u8]) -> Result<(), Fault> {
        for_both!(self, code => code.encode(message, word))
    }

    fn message_of(&self, word: &[u8], message: &mut [u8]) -> Result<(), Fault> {
        for_both!(self, code => code.message_of(word, message))
    }

    fn correct(&self, word: &mut [u8], marks: &[u8]) -> Result<usize, Fault> {
        for_both!(self, code => code.correct(word, marks))
    }
}
