// The numbers that several crates name, each once. The definitions have theirs in specs/Sizes, and beside what they measure.
#![tactic(auto)]

pub mod refusals;

// "1 to 48 Type 2 ports"
pub const PORTS: usize = 48;

// The same as a cell holds it, and as a caller hands it in.
pub const PORTS_16: u16 = PORTS as u16;

pub const PORTS_64: u64 = PORTS as u64;

// "14 bytes a port"
pub const SAMPLE: usize = 14;

// A counter "adds one each tick but stops at 2,000".
pub const MOST_COUNT: u16 = 2_000;

// Request [4] of document 02: a power value is "0 through 999".
pub const MOST_VALUE: u64 = 999;

// The lent table: 8 cells of head, and 15 fields of each place. Field by field and no array of structs, as C lends it.
pub const CELLS: usize = 8 + 15 * PORTS;

// A table's image: 6 bytes of head, and 21 of each place.
pub const IMAGE_PORT: usize = 21;

pub const IMAGE: usize = 6 + IMAGE_PORT * PORTS;
