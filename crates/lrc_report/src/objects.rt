//! Parts of the objects that `--json` prints.

use crate::report::push_reason;
use crate::text::has;
use fragment_files::{Failure, Stray};
use lrc_json::{FileObject, OtherObject};
use std::alloc::{AllocError, Global};

/// Appends the numbers of a set, as bits, in order.
pub fn add_numbers(numbers: &mut Vec<u8>, bits: u16) -> Result<(), AllocError> {
    for number in 0..16u8 {
        if has(bits, number) {
            numbers.push(number)?;
        }
    }
    Ok(())
}

/// The numbers of a set, as bits, in order.
pub fn numbers_in(alloc: Global, bits: u16) -> Result<Vec<u8>, AllocError> {
    let mut numbers = Vec::new(alloc);
    add_numbers(&mut numbers, bits)?;
    Ok(numbers)
}

/// The object of a fragment's file.
pub fn file_object(alloc: Global, number: u8, path: &str) -> Result<FileObject, AllocError> {
    let path = String::from_str(alloc, path)?;
    Ok(FileObject { number, path })
}

/// The object of a path that is not of the set.
fn other_object(alloc: Global, stray: &Stray) -> Result<OtherObject, Failure> {
    let mut reason = String::new(alloc);
    push_reason(&mut reason, &stray.reason)?;
    let path = String::from_str(alloc, stray.path.as_str())?;
    Ok(OtherObject { path, reason })
}

/// Appends the objects of the paths that are not of the set.
pub fn add_others(
    alloc: Global,
    others: &mut Vec<OtherObject>,
    strays: &[Stray],
) -> Result<(), Failure> {
    for stray in strays {
        others.push(other_object(alloc, stray)?)?;
    }
    Ok(())
}
