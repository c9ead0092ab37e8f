// Every limit of the product stands here, and in specs/Limits.antt.

// The height of a term.
pub const HIGHEST: u8 = 64;

// The length of a list.
pub const LONGEST: usize = 256;

// The entries of a store.
pub const MOST_ENTRIES: usize = 65_535;

// The names of one goal.
pub const MOST_NAMES: u32 = 256;

// The places of a log.
pub const MOST_PLACES: u32 = 65_535;

// The parts of all entries of a store: no entry has more than a list of the greatest length.
pub const MOST_ITEMS: usize = 16_776_960;

// The open marks of a host.
pub const MOST_MARKS: usize = 64;

// The levels of a walk that resolves: its root is at level 1.
pub const MOST_LEVELS: usize = 64;
