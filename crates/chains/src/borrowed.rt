// A chain that is lent is a chain, so that who has a reference to one may hand it on.
use crate::chain::{Chain, Estimate};
use words::fault::Fault;

impl<H: Chain> Chain for &H {
    ghost model = { λ h. H.Chain.model h.now };

    ghost refusal = { λ h. H.Chain.refusal h.now };

    ghost lawful = { λ h s. H.Chain.lawful h.now s };

    ghost one_fault = { λ h f due. H.Chain.one_fault h.now f due };

    fn check(&self) -> Result<(), Fault> {
        (**self).check()
    }

    fn breadth(&self) -> usize {
        (**self).breadth()
    }

    fn stages(&self) -> usize {
        (**self).stages()
    }

    fn width(&self, stage: usize) -> Result<usize, Fault> {
        (**self).width(stage)
    }

    fn distance(&self, stage: usize) -> Result<usize, Fault> {
        (**self).distance(stage)
    }

    fn word_of(&self, labels: &[u8], cells: &mut [u8]) -> Result<(), Fault> {
        (**self).word_of(labels, cells)
    }

    fn estimate(
        &self,
        stage: usize,
        labels: &[u8],
        cells: &[u8],
        marks: &[u8],
    ) -> Result<Option<Estimate>, Fault> {
        (**self).estimate(stage, labels, cells, marks)
    }
}
