// How many bytes the parts of a recording take.

/// A number.
pub const NUMBER_BYTES: usize = 4;

/// An entry: two numbers.
pub const ENTRY_BYTES: usize = 2 * NUMBER_BYTES;

/// The ending: four numbers.
pub const ENDING_BYTES: usize = 4 * NUMBER_BYTES;
