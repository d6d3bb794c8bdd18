// The chains and the codes that a recipe can name.
ghost use Rattle.std.specs.Prelude.{◌≡◌, ◌<◌, ◌≤◌, Bool};
ghost use Rattle.recipes.specs.Chains.{Known, chain_named, cells_of, stages_of, width_at, distance_at};
ghost use Rattle.recipes.specs.Codes.{code_named, fits_kind, outer_distance};

use std::fmt;

/// The chain (the inner code and its partition) that a recipe names.
#[derive(Clone, Copy, PartialEq, Eq, Debug)]
pub enum ChainKind {
    /// Reed-Muller of length 2^r.
    ReedMuller(u8),
    /// All words of n cells, and those of even weight.
    Even(u8),
}

/// The kind of outer code that a recipe names for a stage.
#[derive(Clone, Copy, PartialEq, Eq, Debug)]
pub enum CodeKind {
    Open,
    ReedSolomon,
    Repetition,
    /// Reed-Solomon over the extension of the field of half the width.
    ExtendedReedSolomon,
}

// Pascal's triangle: how many sets of i there are among r things, at row r.
const CHOICES: [[u8; 5]; 5] = [
    [1, 0, 0, 0, 0],
    [1, 1, 0, 0, 0],
    [1, 2, 1, 0, 0],
    [1, 3, 3, 1, 0],
    [1, 4, 6, 4, 1],
];

impl fmt::Display for ChainKind {
    fn fmt<W: fmt::Write>(&self, f: &mut fmt::Formatter<W>) -> fmt::Result {
        match self {
            ChainKind::ReedMuller(r) => write!(f, "Reed-Muller with r = {r}"),
            ChainKind::Even(n) => write!(f, "even with n = {n}"),
        }
    }
}

impl fmt::Display for CodeKind {
    fn fmt<W: fmt::Write>(&self, f: &mut fmt::Formatter<W>) -> fmt::Result {
        f.write_str(match self {
            CodeKind::Open => "open",
            CodeKind::ReedSolomon => "Reed-Solomon",
            CodeKind::Repetition => "repetition",
            CodeKind::ExtendedReedSolomon => "Reed-Solomon over the extension",
        })
    }
}

impl ChainKind {
    /// The chain that a recipe's first byte names. An Option, since an error of TryFrom would say no more.
    pub fn named(byte: u8) -> Option<Self>
        ensures { result ≡ chain_named byte }
    {
        match byte {
            0x11..=0x14 => Some(ChainKind::ReedMuller(byte - 0x10)),
            0x22..=0x29 => Some(ChainKind::Even(byte - 0x20)),
            _ => None,
        }
    }

    // These are the numbers of the chain and the codes that a recipe names, counted before one is made; recipe_piles promises
    // that both agree. That r and n are in range stands in each contract, since an enum has no ghost field.
    pub(crate) fn cells(self) -> usize
        requires { Known self }
        ensures { result ≡ cells_of self }
    {
        match self {
            ChainKind::ReedMuller(r) => 1 << r,
            ChainKind::Even(n) => usize::from(n),
        }
    }

    pub(crate) fn stages(self) -> usize
        requires { Known self }
        ensures { result ≡ stages_of self }
    {
        match self {
            ChainKind::ReedMuller(r) => usize::from(r) + 1,
            ChainKind::Even(_) => 2,
        }
    }

    // The label width of the stage with index i, the first stage having index 0.
    pub(crate) fn width(self, i: usize) -> usize
        requires { (Known self) × (i < stages_of self) }
        ensures { result ≡ width_at self i }
    {
        match self {
            ChainKind::ReedMuller(r) => usize::from(CHOICES[usize::from(r)][i]),
            ChainKind::Even(n) => { if i == 0 { 1 } else { usize::from(n) - 1 } }
        }
    }

    pub(crate) fn distance(self, i: usize) -> usize
        requires { (Known self) × (i < stages_of self) }
        ensures { result ≡ distance_at self i }
    {
        match self {
            ChainKind::ReedMuller(_) => 1 << i,
            ChainKind::Even(_) => i + 1,
        }
    }
}

impl CodeKind {
    /// The kind of code that a stage's first byte names at a label width, which TryFrom has no place for.
    pub fn named(byte: u8, width: usize) -> Option<Self>
        ensures { result ≡ code_named byte width }
    {
        match byte {
            0 => Some(CodeKind::Open),
            1 => Some(CodeKind::ReedSolomon),
            2 => Some(CodeKind::Repetition),
            3 if width % 2 == 0 => Some(CodeKind::ExtendedReedSolomon),
            _ => None,
        }
    }

    // Whether a message length fits the kind at a label width and a number of columns.
    pub(crate) fn fits(self, width: usize, columns: usize, message_len: usize) -> bool
        requires { width ≤ 8 }
        ensures { result ≡ fits_kind self width columns message_len }
    {
        match self {
            CodeKind::Open => message_len == columns,
            CodeKind::Repetition => message_len == 1,
            CodeKind::ReedSolomon | CodeKind::ExtendedReedSolomon => {
                1 <= message_len && message_len <= columns && columns <= 1 << width
            }
        }
    }

    pub(crate) fn distance(self, columns: usize, message_len: usize) -> usize
        requires { (message_len ≤ columns) × (columns ≤ 4096) }
        ensures { result ≡ outer_distance self columns message_len }
    {
        match self {
            CodeKind::Open => 1,
            CodeKind::Repetition => columns,
            CodeKind::ReedSolomon | CodeKind::ExtendedReedSolomon => columns - message_len + 1,
        }
    }
}
