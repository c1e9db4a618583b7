//! The object of `lrc verify` and `lrc show`.

use crate::findings::Findings;
use crate::objects::{add_others, file_object, numbers_in};
use crate::picture::row_size;
use crate::report::{is_duplicate, margin_of, open_loss};
use crate::state::State;
use crate::text::{code_name, push_hex};
use fragment_files::{Failure, Set, stripe_count};
use lrc_files::Survey;
use lrc_json::{FileObject, FragmentObject, SetObject, StripesObject};
use std::alloc::{AllocError, Global};

/// A text that may be missing, copied.
fn copy_of(alloc: Global, text: Option<&str>) -> Result<Option<String>, AllocError> {
    match text {
        Some(text) => Ok(Some(String::from_str(alloc, text)?)),
        None => Ok(None),
    }
}

/// What is wrong with the file of a fragment, if there is one.
fn details_of<'a>(state: &'a State) -> Option<&'a str> {
    if state.path.is_some() && !state.is_whole() {
        Some(state.details.as_str())
    } else {
        None
    }
}

/// The object of a fragment's state.
fn fragment_object(alloc: Global, state: &State) -> Result<FragmentObject, AllocError> {
    let path = copy_of(alloc, state.path)?;
    let details = copy_of(alloc, details_of(state))?;
    Ok(FragmentObject {
        number: state.number,
        state: state.word,
        path,
        details,
        lost_records: state.lost,
        first_lost_stripe: state.first_lost,
    })
}

/// Appends the objects of the fragments' states.
fn add_fragments(
    alloc: Global,
    fragments: &mut Vec<FragmentObject>,
    states: &[State],
) -> Result<(), Failure> {
    for state in states {
        fragments.push(fragment_object(alloc, state)?)?;
    }
    Ok(())
}

/// Appends the objects of the fragments' files beside their first.
fn add_again(alloc: Global, again: &mut Vec<FileObject>, set: &Set) -> Result<(), Failure> {
    for source in set.sources.iter() {
        if is_duplicate(set, source) {
            let number = source.header.fragment;
            again.push(file_object(alloc, number, source.path.as_str())?)?;
        }
    }
    Ok(())
}

/// The object of some stripes.
fn stripes_object(
    alloc: Global,
    first_stripe: u64,
    stripes: u64,
    lost: u16,
) -> Result<StripesObject, AllocError> {
    let lost = numbers_in(alloc, lost)?;
    Ok(StripesObject {
        first_stripe,
        stripes,
        lost,
    })
}

/// Appends the objects of the stripes with unrecoverable fragments.
fn add_open(
    alloc: Global,
    open: &mut Vec<StripesObject>,
    set: &Set,
    found: &Survey,
) -> Result<(), Failure> {
    for loss in found.losses.iter() {
        if let Some(lost) = open_loss(set, found, loss) {
            open.push(stripes_object(alloc, loss.first, loss.stripes, lost)?)?;
        }
    }
    Ok(())
}

/// Appends the objects of a picture's rows.
fn add_rows(
    alloc: Global,
    rows: &mut Vec<StripesObject>,
    set: &Set,
    found: &Survey,
) -> Result<(), Failure> {
    let stripes = stripe_count(&set.header);
    let each = row_size(set, found);
    let mut from = 0u64;
    for lost in found.rows.iter() {
        let end = from.saturating_add(each).min(stripes);
        if from < end {
            rows.push(stripes_object(alloc, from, end - from, *lost)?)?;
        }
        from = end;
    }
    Ok(())
}

/// The digest that was expected, in digits.
fn expected_of(alloc: Global, expect: Option<[u8; 32]>) -> Result<Option<String>, AllocError> {
    let Some(digest) = expect else {
        return Ok(None);
    };
    let mut text = String::new(alloc);
    push_hex(&mut text, &digest)?;
    Ok(Some(text))
}

/// The object of what was found of a set, without its texts and lists.
fn bare_object(alloc: Global, findings: &Findings, expected: Option<String>) -> SetObject {
    let header = &findings.set.header;
    SetObject {
        command: findings.command,
        status: findings.status.code(),
        set: String::new(alloc),
        digest: String::new(alloc),
        expected,
        code: code_name(header.code),
        bytes: header.len,
        width: header.width,
        stripes: stripe_count(header),
        fragments: Vec::new(alloc),
        again: Vec::new(alloc),
        others: Vec::new(alloc),
        unrecoverable: Vec::new(alloc),
        margin: margin_of(findings.set, findings.found),
        rows: Vec::new(alloc),
    }
}

/// Fills in the texts and lists.
fn fill(alloc: Global, findings: &Findings, object: &mut SetObject) -> Result<(), Failure> {
    let set = findings.set;
    let found = findings.found;
    push_hex(&mut object.set, &set.header.set)?;
    push_hex(&mut object.digest, &set.key)?;
    add_fragments(alloc, &mut object.fragments, findings.states)?;
    add_again(alloc, &mut object.again, set)?;
    add_others(alloc, &mut object.others, findings.strays)?;
    add_open(alloc, &mut object.unrecoverable, set, found)?;
    add_rows(alloc, &mut object.rows, set, found)
}

/// The object of what was found of a set.
pub fn set_object(alloc: Global, findings: &Findings) -> Result<SetObject, Failure> {
    let expected = expected_of(alloc, findings.expect)?;
    let mut object = bare_object(alloc, findings, expected);
    fill(alloc, findings, &mut object)?;
    Ok(object)
}
