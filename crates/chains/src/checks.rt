// The checks that the calls of every chain make, over the label widths of its stages.
ghost use Rattle.std.specs.Prelude.{◌≡◌, ◌≤◌, length};
ghost use Rattle.std.specs.List.{All};
ghost use Rattle.words.specs.Buffers.{checked};
ghost use Rattle.chains.specs.Model.{at_stage};
ghost use Rattle.chains.specs.Refusals.{stage_refusal, large_label, word_refusal, estimate_refusal};

use words::buffer::{Buffer, check_buffers};
use words::fault::{Fault, Kind, Layer};

pub(crate) fn check_stage(stages: usize, stage: usize) -> Result<(), Fault>
    ensures { result ≡ checked (stage_refusal stages stage) }
{
    if (1..=stages).contains(&stage) {
        Ok(())
    } else {
        Err(Fault::new(Kind::StageOutOfRange, Layer::Chain, stage))
    }
}

/// What a chain's buffers are checked against: its number of cells, and the label widths of its stages.
#[derive(Clone, Copy)]
pub(crate) struct Frame<'a> {
    pub(crate) breadth: usize,
    pub(crate) widths: &'a [u8],
    ghost narrow: { All (λ w. w ≤ 8) widths.now },
}

impl Frame<'_> {
    fn check_labels(&self, labels: &[u8]) -> Result<(), Fault>
        requires { length labels.now ≤ length self.now.widths.now }
        ensures { result ≡ checked (large_label (at_stage self.now.widths.now) 0 labels.now) }
    {
        // The place of a width is that of its label: over a zip the proof must be told so at each turn.
        for (i, label) in labels.iter().enumerate() {
            if u16::from(*label) >= 1 << self.widths[i] {
                return Err(Fault::new(Kind::TooLarge, Layer::Chain, i));
            }
        }
        Ok(())
    }

    /// Checks a whole row of labels, and the room for its word.
    pub(crate) fn check_row(&self, labels: &[u8], cells: &[u8]) -> Result<(), Fault>
        ensures { result ≡ checked (word_refusal self.now.breadth (length self.now.widths.now) (at_stage self.now.widths.now) labels.now cells.now) }
    {
        check_buffers(
            Layer::Chain,
            &[
                Buffer::new(labels, self.widths.len(), 256),
                Buffer::new(cells, self.breadth, 256),
            ],
        )?;
        self.check_labels(labels)
    }

    /// Checks a stage, the labels decided before it, and a reading.
    pub(crate) fn check_reading(
        &self,
        stage: usize,
        labels: &[u8],
        cells: &[u8],
        marks: &[u8],
    ) -> Result<(), Fault>
        ensures { result ≡ checked (estimate_refusal self.now.breadth (length self.now.widths.now) (at_stage self.now.widths.now) stage labels.now cells.now marks.now) }
    {
        check_stage(self.widths.len(), stage)?;
        check_buffers(
            Layer::Chain,
            &[
                Buffer::new(labels, stage - 1, 256),
                Buffer::new(cells, self.breadth, 256),
                Buffer::new(marks, self.breadth, 256),
            ],
        )?;
        self.check_labels(labels)?;
        check_buffers(
            Layer::Chain,
            &[
                Buffer::new(cells, self.breadth, 2),
                Buffer::new(marks, self.breadth, 2),
            ],
        )
    }
}
