// Random numbers that are the same in each run.

/// A xorshift generator, by its state.
#[derive(Clone, Copy)]
pub(crate) struct Random(pub(crate) u64);

impl Random {
    /// The next number, which is also the next state.
    pub(crate) fn next(&mut self) -> u64 {
        let x = self.0 ^ (self.0 << 13);
        let y = x ^ (x >> 7);
        self.0 = y ^ (y << 17);
        self.0
    }
}
