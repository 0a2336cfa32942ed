// A frame: six codes and an enable byte, and the same as seven cells in memory. Codes, bits and cells have a file each.
// Every function here is internal to the project: its callers meet its `requires`.
#![tactic(auto)]

pub mod bits; // bits.rt: the bits of a byte
pub mod cells; // cells.rt: a frame as seven cells, and the checks of cells
pub mod codes; // codes.rt: code and sample

// A code is below this. A code is a plain number and no type of its own: cells, captures and C hold plain numbers, and
// a type would be made and taken apart at each.
pub const CODE_LIMIT: u16 = 1024;

// The code of a sample of 0, and the code before a capture's first frame.
pub const MIDDLE_CODE: u16 = 512;

// An enable byte is below this: its bit 7 is 0.
pub const ENABLE_LIMIT: u16 = 128;

// A capture, and cells that are checked, hold at most so many frames.
pub const MOST_FRAMES: usize = 4096;
