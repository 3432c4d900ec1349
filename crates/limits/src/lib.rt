// The limits of a block and of a sheet file, by name. Each number is written here for the code, and in specs/Limits.antt for the definitions.
#![tactic(auto)]

pub mod refusal;

// The most rows of a block.
pub const MOST_ROWS: usize = 281_474_976_710_655;

// The most stored items of a block, and the most runs.
pub const MOST_ITEMS: usize = 1_048_576;

// The most entries of a dictionary.
pub const MOST_ENTRIES: usize = 65_536;

// The most bytes of a block.
pub const MOST_BYTES: usize = 16_777_216;

// The most rows of one run.
pub const MOST_COUNT: usize = 4_294_967_295;

// The most bytes of char, blob and string rows that one read gives: an end is a u32.
pub const MOST_GIVEN: usize = 4_294_967_295;

// The most bytes of the listing program's input: a descriptor and a block.
pub const MOST_INPUT: usize = 65_536;

// The most bytes of a char item.
pub const MOST_WIDTH: usize = 255;

// The most bytes of a sheet file, and the most columns.
pub const MOST_FILE: usize = 16_777_216;

pub const MOST_COLUMNS: usize = 64;
