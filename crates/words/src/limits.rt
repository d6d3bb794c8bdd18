// How large a page, a chain and a memory may be.

/// The most cells that a page has, and so the most places of a word.
pub const MOST_CELLS: usize = 4096;

/// The most stages that a chain has.
pub const MOST_STAGES: usize = 5;

/// The most pages that a medium has.
pub const MOST_PAGES: usize = 65535;
