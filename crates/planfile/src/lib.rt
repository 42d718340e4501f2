// The plan file: the bounds that only a file has. What a file means is given in specs/; there are no functions here.
#![tactic(auto)]

use planning::{MOST_DELIVERIES, MOST_ENGINES};

// The bounds of document 01 that only a file has, under the names that specs/Bounds gives them.
pub const MOST_BYTES: usize = 32768;

pub const MOST_NAME_BYTES: usize = 16;

pub const LEAST_NAME_BYTE: u8 = 0x20;

pub const MOST_NAME_BYTE: u8 = 0x7E;

// No print is longer: 27 bytes for line 1, and 88 for each piece, of which a plan has at most one for each engine and delivery (specs/Print).
pub const LONGEST_PRINT: usize = 27 + (MOST_ENGINES + MOST_DELIVERIES) * 88;
