//! The sequential specification of the store: names, calls with their notes, histories, and which
//! journals are those of a legal history.
#![tactic(auto)]

mod base;
mod count;
mod journal;
mod lawful;
mod limit;
mod log;
mod metadata;
mod name;
mod note;
mod replay;
mod settle;
mod text;
mod trail;
mod window;

pub use base::Base;
pub use journal::Journal;
pub use lawful::{is_lawful, is_lawful_from};
pub use limit::Limit;
pub use log::Log;
pub use metadata::BlobMetadata;
pub use name::Name;
pub use note::{Call, Entry, Note};
pub use sealed::Fault;
