// A reading of a chain's cells.
ghost use Rattle.std.specs.Prelude.{◌≡◌, ◌<◌, length};
ghost use Rattle.std.specs.List.{All};

/// What the cells of a chain showed, and a mark for each: 1 where it is blank, and else 0.
#[derive(Clone, Copy)]
pub(crate) struct Reading<'a> {
    pub(crate) cells: &'a [u8],
    pub(crate) marks: &'a [u8],
    ghost paired: { length marks.now ≡ length cells.now },
    ghost cells_small: { All (λ b. b < 2) cells.now },
    ghost marks_small: { All (λ b. b < 2) marks.now },
}
