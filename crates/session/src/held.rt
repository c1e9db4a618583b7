//! The contents of a slot.

use crate::{Lending, Refused, Repairs, Session, Version};
use shared::Book;

/// The contents of a slot.
#[derive(Drop)]
pub enum Held {
    /// A session of a store, with the number that the program gave the store.
    Session { session: Session, number: u64 },
    /// A range that is lent.
    Lending(Lending),
    /// The fragments of a plan that are still to be repaired.
    Repairs(Repairs),
    /// Bytes that C fills, and then stores as a blob.
    Buffer(Vec<u8>),
    /// The bytes of a buffer whose put was refused. They can be put again, and not be written.
    Refused(Refused),
    /// A version of a blob, with the number of its store.
    Version { version: Version, number: u64 },
    /// The journal of a closed store.
    Journal(Book),
}
