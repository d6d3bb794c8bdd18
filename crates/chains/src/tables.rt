// The tables of the Reed-Muller chains.
ghost use Rattle.std.specs.Prelude.{◌≡◌, ◌^◌, ◌<◌, slice_index};
ghost use Rattle.chains.specs.ReedMuller.{MullerRange, muller_widths, order};
ghost use Rattle.chains.specs.Votes.{subsets};

// The label widths of the stages, by r.
static WIDTHS: [&[u8]; 4] = [&[1, 1], &[1, 2, 1], &[1, 3, 3, 1], &[1, 4, 6, 4, 1]];

// The numbers of a row's bits, stage by stage, by r.
static ORDER: [&[u8]; 4] = [
    &[1, 0],
    &[3, 1, 2, 0],
    &[7, 3, 5, 6, 1, 2, 4, 0],
    &[15, 7, 11, 13, 14, 3, 5, 6, 9, 10, 12, 1, 2, 4, 8, 0],
];

// For each number, the numbers that have no one outside its ones, as a set of bits.
static SUBSETS: [u16; 16] = [
    0x1, 0x3, 0x5, 0xF, 0x11, 0x33, 0x55, 0xFF, 0x101, 0x303, 0x505, 0xF0F, 0x1111, 0x3333, 0x5555,
    0xFFFF,
];

/// The label widths of the stages.
pub(crate) fn widths(r: usize) -> &'static [u8]
    requires { MullerRange r }
    ensures { result.now ≡ muller_widths r }
{
    WIDTHS[r - 1]
}

/// The number of the bit at place t of a row's bits.
pub(crate) fn number(r: usize, t: usize) -> usize
    requires { (MullerRange r) × (t < 2 ^ r) }
    ensures is { result ≡ slice_index (order r) t }
    ensures small { result < 2 ^ r }
{
    usize::from(ORDER[r - 1][t])
}

/// The numbers that have no one outside those of s, as a set of bits.
#[tactic(auto, using(crate::proofs::MullerTables::subsets_right))]
pub(crate) fn subsets(s: usize) -> u16
    requires { s < 16 }
    ensures { result ≡ subsets s }
{
    SUBSETS[s]
}
