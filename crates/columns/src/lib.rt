// The columns of packed rows: how many rows have each, as numbers in bit planes. Definitions and laws, and where they lie; no functions.
#![tactic(auto)]

// Where the work list has the planes of the numbers, 16 words for 64 columns, and the set of untaken columns.
pub const PLANES: usize = 8192;

pub const UNTAKEN: usize = 8448;
