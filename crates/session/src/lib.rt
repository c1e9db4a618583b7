//! What a program in C owns between calls. A slot holds a session of a store, a lent range, the
//! rest of a plan, bytes to put, a version of a blob, or a journal.
#![tactic(auto)]

mod calls;
mod copying;
mod held;
mod lending;
mod loose;
mod refused;
mod repairs;
mod runs;
mod session;
mod slot;
mod slot_lends;
mod version;

pub use copying::{Copied, copy_out};
pub use held::Held;
pub use lending::{Lending, LentBuffer, LentSlice};
pub use refused::Refused;
pub use repairs::Repairs;
pub use session::Session;
pub use shared::{
    Answer, Asked, Book, Bytes, Call, Code, Entry, Fault, Grant, Item, Limit, Name, Note, Numbers,
    Plan, Snapshot, is_lawful_from,
};
pub use slot::Slot;
pub use version::Version;
