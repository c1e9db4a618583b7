//! What `lrc` prints of a set, as text and as objects.
#![tactic(auto)]

mod findings;
mod objects;
mod picture;
mod report;
mod set_object;
mod state;
mod text;

pub use findings::{Findings, push_report, push_set_object, push_shown, status_of};
pub use objects::{add_numbers, add_others, file_object, numbers_in};
pub use report::push_strays;
pub use state::{State, states_of};
pub use text::{code_name, has, plural, push_hex, push_numbers};
