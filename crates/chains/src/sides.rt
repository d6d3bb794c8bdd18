// A chain of one of two types is a chain. Taken again and again it mixes any kinds under one type.
ghost use Rattle.chains.specs.Either.{either_chain, either_refusal, either_lawful, either_fault};

use crate::chain::{Chain, Estimate};
use either::{Either, for_both};
use words::fault::Fault;

impl<G: Chain, H: Chain> Chain for Either<G, H> {
    ghost model = { either_chain G.Chain.model H.Chain.model };

    ghost refusal = { either_refusal G.Chain.refusal H.Chain.refusal };

    ghost lawful = { either_lawful G.Chain.model H.Chain.model G.Chain.refusal H.Chain.refusal G.Chain.lawful H.Chain.lawful };

    ghost one_fault = { either_fault G.Chain.refusal H.Chain.refusal G.Chain.one_fault H.Chain.one_fault };

    fn check(&self) -> Result<(), Fault> {
        for_both!(self, chain => chain.check())
    }

    fn breadth(&self) -> usize {
        for_both!(self, chain => chain.breadth())
    }

    fn stages(&self) -> usize {
        for_both!(self, chain => chain.stages())
    }

    fn width(&self, stage: usize) -> Result<usize, Fault> {
        for_both!(self, chain => chain.width(stage))
    }

    fn distance(&self, stage: usize) -> Result<usize, Fault> {
        for_both!(self, chain => chain.distance(stage))
    }

    fn word_of(&self, labels: &[u8], cells: &mut [u8]) -> Result<(), Fault> {
        for_both!(self, chain => chain.word_of(labels, cells))
    }

    fn estimate(
        &self,
        stage: usize,
        labels: &[u8],
        cells: &[u8],
        marks: &[u8],
    ) -> Result<Option<Estimate>, Fault> {
        for_both!(self, chain => chain.estimate(stage, labels, cells, marks))
    }
}
