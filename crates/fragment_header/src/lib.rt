//! The header of a fragment's file: a page of 4,096 bytes that stands at both ends of the file, and
//! says which fragment of which set the file is.
#![tactic(auto)]

mod header;
mod making;
mod parsing;
mod printing;

pub use header::{Header, MAX_LEN, MAX_WIDTH, NoMemory, WIDTH_UNIT};
pub use making::header_of;
pub use parsing::parse;
pub use printing::print;

/// How many bytes a header has in its file.
pub const PAGE: usize = 4_096;
