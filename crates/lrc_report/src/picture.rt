//! A picture of a set: a row for some stripes, a column for each fragment.

use crate::text::has;
use fragment_files::{Failure, Set, stripe_count};
use lrc_code::Code;
use lrc_files::{Survey, bits_of};
use std::fmt::Write;

/// Whether a gap stands before a fragment's column: before the second group, the local parities and
/// the global ones.
fn begins_group(code: Code, number: u8) -> bool {
    match code {
        Code::Wide => number == 6 || number == 12 || number == 14,
        Code::Small => number == 3 || number == 6 || number == 8,
    }
}

/// Appends the numbers above the columns.
fn push_heading(text: &mut String, code: Code) -> Result<(), Failure> {
    text.push_str("          stripes ")?;
    for number in 0..code.fragments() {
        if begins_group(code, number) {
            text.push_str(" |")?;
        }
        write!(text, " {number:>2}")?;
    }
    text.push('\n')?;
    Ok(())
}

/// The sign of a fragment in a row.
fn sign(missing: u16, lost: u16, number: u8) -> char {
    if has(missing, number) {
        '.'
    } else if has(lost, number) {
        'x'
    } else {
        '#'
    }
}

/// Appends a row.
fn push_row(
    text: &mut String,
    code: Code,
    range: (u64, u64),
    missing: u16,
    lost: u16,
) -> Result<(), Failure> {
    let (from, to) = range;
    write!(text, "{from:>8}-{to:<8} ")?;
    for number in 0..code.fragments() {
        if begins_group(code, number) {
            text.push_str(" |")?;
        }
        let sign = sign(missing, lost, number);
        write!(text, "  {sign}")?;
    }
    text.push('\n')?;
    Ok(())
}

/// How many stripes each row has, except the last.
pub fn row_size(set: &Set, found: &Survey) -> u64 {
    match found.rows.len() as u64 {
        0 => 1,
        rows => stripe_count(&set.header).div_ceil(rows),
    }
}

/// Appends the picture of a set.
pub fn push_picture(text: &mut String, set: &Set, found: &Survey) -> Result<(), Failure> {
    let code = set.header.code;
    let stripes = stripe_count(&set.header);
    let each = row_size(set, found);
    let missing = bits_of(code, set.missing());
    push_heading(text, code)?;
    let mut from = 0u64;
    for lost in found.rows.iter() {
        let end = from.saturating_add(each).min(stripes);
        if from < end {
            push_row(text, code, (from, end - 1), missing, *lost)?;
        }
        from = end;
    }
    text.push_str("# whole   x damaged   . missing\n")?;
    Ok(())
}
