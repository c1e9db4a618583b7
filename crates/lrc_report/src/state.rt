//! The state of each fragment, in words.

use fragment_files::{Ends, Failure, Set, Source, file_len, stripe_count};
use lrc_files::{Fragment, Survey};
use std::alloc::Global;
use std::fmt::Write;

/// The state of a fragment.
#[derive(Drop)]
pub struct State<'a> {
    /// The number of the fragment.
    pub number: u8,
    /// `whole`, `damaged`, `altered` or `missing`.
    pub word: &'static str,
    /// The path of its file.
    pub path: Option<&'a str>,
    /// What is damaged, or an empty text.
    pub details: String,
    /// How many records are missing or damaged.
    pub lost: u64,
    /// The first stripe with such a record.
    pub first_lost: Option<u64>,
}

impl State<'_> {
    /// Whether the fragment is as it was written.
    pub fn is_whole(&self) -> bool {
        self.details.is_empty()
    }
}

/// What is wrong with a file as such: its length or a header.
fn push_file_details(text: &mut String, source: &Source) -> Result<(), Failure> {
    let expected = file_len(&source.header);
    let len = source.len;
    if len != expected {
        write!(text, "{len} bytes, expected {expected}")?;
    } else if source.ends == Ends::First {
        text.push_str("the header at the end is damaged")?;
    } else if source.ends == Ends::Last {
        text.push_str("the header at the beginning is damaged")?;
    }
    Ok(())
}

/// What is wrong with a fragment's records.
fn push_record_details(
    text: &mut String,
    fragment: &Fragment,
    stripes: u64,
) -> Result<(), Failure> {
    if fragment.lost > 0 && !text.is_empty() {
        text.push_str("; ")?;
    }
    let lost = fragment.lost;
    if let Some(first) = fragment.first_lost {
        write!(
            text,
            "{lost} of {stripes} records, the first in stripe {first}"
        )?;
    } else if fragment.is_altered {
        text.push_str("its records are not those that the header lists")?;
    }
    Ok(())
}

/// The state of one fragment.
fn state_of<'a>(alloc: Global, set: &'a Set, fragment: &Fragment) -> Result<State<'a>, Failure> {
    let number = fragment.number;
    let lost = fragment.lost;
    let first_lost = fragment.first_lost;
    let mut details = String::new(alloc);
    let Some(source) = set.find(number) else {
        details.push_str("no file is of this fragment")?;
        return Ok(State {
            number,
            word: "missing",
            path: None,
            details,
            lost,
            first_lost,
        });
    };
    push_file_details(&mut details, source)?;
    push_record_details(&mut details, fragment, stripe_count(&set.header))?;
    let word = if details.is_empty() {
        "whole"
    } else if fragment.is_altered {
        "altered"
    } else {
        "damaged"
    };
    Ok(State {
        number,
        word,
        path: Some(source.path.as_str()),
        details,
        lost,
        first_lost,
    })
}

/// The states of all fragments.
pub fn states_of<'a>(
    alloc: Global,
    set: &'a Set,
    found: &Survey,
) -> Result<Vec<State<'a>>, Failure> {
    let mut states = Vec::new(alloc);
    for fragment in found.fragments.iter() {
        states.push(state_of(alloc, set, fragment)?)?;
    }
    Ok(states)
}
