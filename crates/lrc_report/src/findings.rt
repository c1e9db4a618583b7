//! What was found of a set, as text and as an object.

use crate::picture::push_picture;
use crate::report::{margin_of, push_duplicates, push_set, push_states, push_strays, push_verdict};
use crate::set_object::set_object;
use crate::state::State;
use crate::text::push_hex;
use fragment_files::{Failure, Set, Stray};
use lrc_files::{Status, Survey};
use lrc_json::push_object;
use std::alloc::Global;

/// What was found of a set.
#[derive(Drop)]
pub struct Findings<'a> {
    /// The name of the command.
    pub command: &'static str,
    /// The set.
    pub set: &'a Set,
    /// What is lost.
    pub found: &'a Survey,
    /// The states of the fragments.
    pub states: &'a [State<'a>],
    /// The paths that are not of the set.
    pub strays: &'a [Stray],
    /// The digest that was expected.
    pub expect: Option<[u8; 32]>,
    /// How bad it is.
    pub status: Status,
}

/// How bad what was found is.
pub fn status_of(set: &Set, found: &Survey, states: &[State]) -> Status {
    if margin_of(set, found).is_none() {
        return Status::Unrecoverable;
    }
    for state in states {
        if !state.is_whole() {
            return Status::Recoverable;
        }
    }
    Status::Whole
}

/// Appends which digest was expected, if the set has another.
fn push_expected(text: &mut String, set: &Set, expect: Option<[u8; 32]>) -> Result<(), Failure> {
    if let Some(digest) = expect {
        if digest != set.key {
            text.push_str("expected ")?;
            push_hex(text, &digest)?;
            text.push('\n')?;
        }
    }
    Ok(())
}

/// Appends the report on a set.
pub fn push_report(text: &mut String, findings: &Findings) -> Result<(), Failure> {
    let set = findings.set;
    push_set(text, set)?;
    push_expected(text, set, findings.expect)?;
    push_states(text, findings.states)?;
    push_duplicates(text, set)?;
    push_strays(text, findings.strays)?;
    push_verdict(text, set, findings.found, findings.status)
}

/// Appends the object of a set.
pub fn push_set_object(
    alloc: Global,
    text: &mut String,
    findings: &Findings,
) -> Result<(), Failure> {
    let object = set_object(alloc, findings)?;
    push_object(text, alloc, &object)?;
    Ok(())
}

/// Appends the picture of a set.
pub fn push_shown(text: &mut String, findings: &Findings) -> Result<(), Failure> {
    push_set(text, findings.set)?;
    push_strays(text, findings.strays)?;
    push_picture(text, findings.set, findings.found)?;
    push_verdict(text, findings.set, findings.found, findings.status)
}
