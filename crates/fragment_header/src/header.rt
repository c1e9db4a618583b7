//! What a header says.

ghost use Rattle.std.specs.Prelude.{◌≡◌, ◌<◌, ◌≤◌, ◌%◌, ◌^◌};
ghost use Rattle.lrc_code.specs.Code.{fragment_count};

use lrc_code::Code;
use std::alloc::AllocError;

/// A request for memory was refused.
pub type NoMemory = AllocError;

/// The largest width of a block, in bytes.
pub const MAX_WIDTH: u32 = 1_048_576;

/// What a width is a multiple of.
pub const WIDTH_UNIT: u32 = 64;

/// The largest length of a file, in bytes.
pub const MAX_LEN: u64 = 1_152_921_504_606_846_976;

/// What a fragment's file says of itself and of its set.
#[derive(Clone, Copy, Debug)]
pub struct Header {
    /// The code of the set's stripes.
    pub code: Code,
    /// The number of this fragment.
    pub fragment: u8,
    /// How many bytes a block has: a multiple of 64.
    pub width: u32,
    /// How many bytes the file has that the set holds.
    pub len: u64,
    /// The identifier of the set.
    pub set: [u8; 16],
    /// For each of sixteen fragments the digest of its records' digests, or zeros if the code does
    /// not have the fragment.
    pub digests: [u8; 512],
    pub ghost in_code: { fragment < fragment_count code },
    pub ghost not_empty: { 0 < width },
    pub ghost not_wide: { width ≤ 1048576 },
    pub ghost in_units: { width % 64 ≡ 0 },
    pub ghost not_long: { len ≤ 2 ^ 60 },
}
