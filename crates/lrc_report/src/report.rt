//! The report of `lrc verify`, as text.

use crate::state::State;
use crate::text::{code_name, plural, push_hex, push_numbers};
use fragment_files::{Failure, Reason, Set, Source, Stray, stripe_count};
use lrc_code::LostSet;
use lrc_files::{Loss, Status, Survey, bits_of, fatal_loss};
use std::fmt::Write;

/// Appends what the set is.
pub fn push_set(text: &mut String, set: &Set) -> Result<(), Failure> {
    let header = &set.header;
    let name = code_name(header.code);
    let len = header.len;
    let width = header.width;
    let stripes = stripe_count(header);
    text.push_str("set ")?;
    push_hex(text, &set.header.set)?;
    let ending = plural(stripes);
    writeln!(
        text,
        ": {name}, {len} bytes in {stripes} stripe{ending}, blocks of {width} bytes"
    )?;
    text.push_str("digest ")?;
    push_hex(text, &set.key)?;
    text.push('\n')?;
    Ok(())
}

/// Appends the states of the fragments.
pub fn push_states(text: &mut String, states: &[State]) -> Result<(), Failure> {
    for state in states {
        let number = state.number;
        let word = state.word;
        write!(text, "{number:>3} {word:<7}")?;
        if let Some(path) = state.path {
            write!(text, " {path}")?;
        }
        if state.path.is_some() && !state.is_whole() {
            let details = state.details.as_str();
            write!(text, ": {details}")?;
        }
        text.push('\n')?;
    }
    Ok(())
}

/// Whether a file is of a fragment that another file is of before it.
pub fn is_duplicate(set: &Set, source: &Source) -> bool {
    match set.find(source.header.fragment) {
        Some(first) => first.path.as_str() != source.path.as_str(),
        None => false,
    }
}

/// Appends the files of a fragment beside its first.
pub fn push_duplicates(text: &mut String, set: &Set) -> Result<(), Failure> {
    for source in set.sources.iter() {
        if is_duplicate(set, source) {
            let number = source.header.fragment;
            let path = source.path.as_str();
            writeln!(text, "{number:>3} again   {path}")?;
        }
    }
    Ok(())
}

/// Appends why a path is not of the set.
pub fn push_reason(text: &mut String, reason: &Reason) -> Result<(), Failure> {
    match reason {
        Reason::Missing => text.push_str("there is no such file")?,
        Reason::NoHeader => text.push_str("no header is whole")?,
        Reason::Unreadable(error) => write!(text, "can't be read: {error}")?,
        Reason::OtherSet(id) => {
            text.push_str("of the set ")?;
            push_hex(text, id)?;
        }
    }
    Ok(())
}

/// Appends the paths that are not of the set.
pub fn push_strays(text: &mut String, strays: &[Stray]) -> Result<(), Failure> {
    for stray in strays {
        let path = stray.path.as_str();
        write!(text, "not of the set: {path}: ")?;
        push_reason(text, &stray.reason)?;
        text.push('\n')?;
    }
    Ok(())
}

/// The least number of further fragments whose loss would make one unrecoverable.
fn fatal_of(set: &Set, found: &Survey) -> u32 {
    let code = set.header.code;
    let altered = found.altered();
    if found.losses.is_empty() {
        return fatal_loss(code, bits_of(code, set.missing()) | altered);
    }
    let mut least = 5;
    for loss in found.losses.iter() {
        least = fatal_loss(code, loss.lost | altered).min(least);
    }
    least
}

/// How many further fragments may be lost, whichever they are, or None if one is unrecoverable.
pub fn margin_of(set: &Set, found: &Survey) -> Option<u32> {
    fatal_of(set, found).checked_sub(1)
}

/// The fragments that are lost in stripes, as bits, if one of them is unrecoverable.
pub fn open_loss(set: &Set, found: &Survey, loss: &Loss) -> Option<u16> {
    let lost = loss.lost | found.altered();
    if LostSet::of_bits(lost).excess_in(set.header.code) > 2 {
        Some(lost)
    } else {
        None
    }
}

/// Appends the stripes with unrecoverable fragments.
fn push_open(text: &mut String, set: &Set, found: &Survey) -> Result<(), Failure> {
    for loss in found.losses.iter() {
        if let Some(lost) = open_loss(set, found, loss) {
            let first = loss.first;
            let others = loss.stripes.saturating_sub(1);
            write!(text, "unrecoverable: stripe {first}")?;
            if others > 0 {
                write!(text, " and {others} more")?;
            }
            text.push_str(": fragments ")?;
            push_numbers(text, lost)?;
            text.push_str(" are lost\n")?;
        }
    }
    Ok(())
}

/// Appends whether all is recoverable, and what may still be lost.
pub fn push_verdict(
    text: &mut String,
    set: &Set,
    found: &Survey,
    status: Status,
) -> Result<(), Failure> {
    push_open(text, set, found)?;
    if let Some(margin) = margin_of(set, found) {
        let word = if status == Status::Whole {
            "whole"
        } else {
            "recoverable"
        };
        let ending = plural(u64::from(margin));
        writeln!(
            text,
            "{word}: any {margin} further fragment{ending} may be lost"
        )?;
    }
    Ok(())
}
