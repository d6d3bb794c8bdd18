// What a recipe's bytes describe: a chain, a number of columns and a table of five stage records.
ghost use Rattle.std.specs.Prelude.{◌≡◌, ◌<◌, ◌≤◌, replicate, slice_set};
ghost use Rattle.recipes.specs.Chains.{Known, stages_of};
ghost use Rattle.recipes.specs.Stages.{stage_of, blank};
ghost use Rattle.recipes.specs.Totals.{Bounded, stage_bits, stage_reach};

use crate::kinds::{ChainKind, CodeKind};
use std::fmt;
use words::limits::MOST_STAGES;

/// One stage: its outer code, and the inner distance that the chain gives it.
#[derive(Clone, Copy, PartialEq, Eq, Debug)]
pub struct Stage {
    pub kind: CodeKind,
    /// The label width in bits, which is the outer code's.
    pub width: usize,
    /// The chain's distance at this stage.
    pub inner: usize,
    /// The outer code's length, the number of columns.
    pub len: usize,
    /// The outer code's message length.
    pub message_len: usize,
    /// The outer code's distance.
    pub distance: usize,
}

impl fmt::Display for Stage {
    fn fmt<W: fmt::Write>(&self, f: &mut fmt::Formatter<W>) -> fmt::Result {
        let Stage {
            kind,
            width,
            inner,
            len,
            message_len,
            distance,
        } = self;
        write!(f, "{width} {inner} {len} {message_len} {distance} ({kind})")
    }
}

impl Stage {
    // The record of a stage that the chain does not have. No Default, which would be public: only a table has such records.
    fn blank() -> Self
        ensures { result ≡ blank }
    {
        Stage {
            kind: CodeKind::Open,
            width: 0,
            inner: 0,
            len: 0,
            message_len: 0,
            distance: 0,
        }
    }

    /// The bits of the stage's message.
    pub(crate) fn bits(&self) -> usize
        requires { Bounded self.now }
        ensures value { result ≡ stage_bits self.now }
        ensures bound { result ≤ 32768 }
    {
        self.message_len * self.width
    }

    /// The inner times the outer distance.
    pub(crate) fn reach(&self) -> usize
        requires { Bounded self.now }
        ensures { result ≡ stage_reach self.now }
    {
        self.inner * self.distance
    }

    fn fill(
        &mut self,
        chain: ChainKind,
        i: usize,
        columns: usize,
        kind: CodeKind,
        message_len: usize,
    )
        requires { (Known chain) × ((i < stages_of chain) × ((message_len ≤ columns) × (columns ≤ 4096))) }
        ensures { self.new ≡ stage_of chain columns i kind message_len }
    {
        self.kind = kind;
        self.width = chain.width(i);
        self.inner = chain.distance(i);
        self.len = columns;
        self.message_len = message_len;
        self.distance = kind.distance(columns, message_len);
    }
}

/// A chain, the columns, and a record for each of five stages.
#[derive(Clone, Copy)]
pub struct Table {
    pub chain: ChainKind,
    pub columns: usize,
    // A record for each stage that a chain can have: a recipe is Copy, which the kit's ArrayVec is not.
    pub stages: [Stage; MOST_STAGES],
}

impl Table {
    pub(crate) fn new(chain: ChainKind, columns: usize) -> Self
        ensures { result ≡ record { chain = chain; columns = columns; stages = replicate 5 blank } }
    {
        Table {
            chain,
            columns,
            stages: [Stage::blank(); MOST_STAGES],
        }
    }

    pub(crate) fn fill(&mut self, i: usize, kind: CodeKind, message_len: usize)
        requires { (Known self.old.chain) × ((i < stages_of self.old.chain) × ((message_len ≤ self.old.columns) × (self.old.columns ≤ 4096))) }
        ensures chain { self.new.chain ≡ self.old.chain }
        ensures columns { self.new.columns ≡ self.old.columns }
        ensures stages { self.new.stages ≡ slice_set self.old.stages i (stage_of self.old.chain self.old.columns i kind message_len) }
    {
        let chain = self.chain;
        let columns = self.columns;
        self.stages[i].fill(chain, i, columns, kind, message_len);
    }
}
