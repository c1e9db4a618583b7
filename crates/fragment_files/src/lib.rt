//! Fragments as files: where their parts stand, which files of those that are named make a set,
//! reads of whole records alone, and files that appear under their names complete or not at all.
#![tactic(auto)]

mod choice;
mod draft;
mod failure;
mod gathering;
mod lane;
mod layout;
mod names;
mod reading;
mod scanning;
mod source;

pub use choice::choose;
pub use draft::{Draft, begin_draft, check_free};
pub use failure::{Failure, file_failure, usage};
pub use gathering::{gather, left_of, lost_of, needed_for};
pub use lane::{Lane, MOST_STRIPES, batch_of, new_lanes};
pub use layout::{
    file_len, place_of, record_at, record_len, set_digest, stripe_count, stripe_size, with_fragment,
};
pub use names::{base_name, fragment_path, parent_of, stem_of};
pub use scanning::{Found, Reason, Set, Stray, is_folder, scan};
pub use source::{Ends, Looked, Source, look};
