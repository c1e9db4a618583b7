//! One file, and the fragment that it says it is.

ghost use Rattle.std.specs.Prelude.{◌≡◌, length};

use crate::failure::{Failure, file_failure};
use crate::layout::{file_len, set_digest};
use fragment_header::{Header, PAGE, parse};
use std::alloc::Global;
use std::fs::File;
use std::os::unix::fs::FileExt;
use std::rt::Files;
use std::{fs, io};

/// Which of a file's two headers are whole.
#[derive(Clone, Copy, Debug, PartialEq, Eq, Drop)]
pub enum Ends {
    /// Both.
    Both,
    /// The one at the beginning.
    First,
    /// The one at the end.
    Last,
}

/// The file of a fragment.
#[derive(Drop)]
pub struct Source {
    /// The file's path.
    pub path: String,
    /// The open file.
    pub file: File,
    /// How many bytes the file has.
    pub len: u64,
    /// What the file's header says.
    pub header: Header,
    /// Which of its headers are whole.
    pub ends: Ends,
    /// The digest of its set.
    pub key: [u8; 32],
}

impl Source {
    /// Whether the file has a header at both ends, and the length that its header says.
    pub fn is_complete(&self) -> bool {
        self.ends == Ends::Both && self.len == file_len(&self.header)
    }
}

/// What was found at a path.
#[derive(Drop)]
pub enum Looked {
    /// A fragment.
    Fragment(Source),
    /// No file.
    Missing,
    /// A file with no header that is whole.
    NoHeader,
    /// A file that can't be opened or read.
    Unreadable(io::Error),
}

/// The header at an offset, if there is one.
fn header_at(alloc: Global, file: &File, at: u64) -> Result<Option<Header>, Failure> {
    let mut page = vec![in alloc; 0u8; PAGE]?;
    if file.read_exact_at(&mut page, at).is_err() || page.len() != PAGE {
        return Ok(None);
    }
    Ok(parse(alloc, page.as_slice())?)
}

/// The header of a file, and which of the two are whole. If both are whole and differ, the first
/// counts.
fn headers_of(alloc: Global, file: &File, len: u64) -> Result<Option<(Header, Ends)>, Failure> {
    let first = header_at(alloc, file, 0)?;
    let last = header_at(alloc, file, len.saturating_sub(PAGE as u64))?;
    Ok(match (first, last) {
        (Some(header), Some(other)) => Some((header, ends_of(alloc, &header, &other)?)),
        (Some(header), None) => Some((header, Ends::First)),
        (None, Some(header)) => Some((header, Ends::Last)),
        (None, None) => None,
    })
}

/// `Ends::Both` if two headers are of one fragment of one set.
fn ends_of(alloc: Global, first: &Header, last: &Header) -> Result<Ends, Failure> {
    let is_same = first.fragment == last.fragment
        && set_digest(alloc, first)? == set_digest(alloc, last)?;
    Ok(if is_same { Ends::Both } else { Ends::First })
}

/// The fragment in an open file.
fn look_in(alloc: Global, path: &str, file: File) -> Result<Looked, Failure> {
    let len = match file.metadata() {
        Ok(metadata) => metadata.len(),
        Err(error) => return Ok(Looked::Unreadable(error)),
    };
    let Some((header, ends)) = headers_of(alloc, &file, len)? else {
        return Ok(Looked::NoHeader);
    };
    let key = set_digest(alloc, &header)?;
    let path = String::from_str(alloc, path)?;
    Ok(Looked::Fragment(Source {
        path,
        file,
        len,
        header,
        ends,
        key,
    }))
}

/// What is found at a path.
pub fn look<R: Files<File = File> + AllocGlobal>(rt: &R, path: &str) -> Result<Looked, Failure> {
    match fs::open(rt, path) {
        Ok(file) => look_in(rt.alloc(), path, file),
        Err(error) if error.kind() == io::ErrorKind::NotFound => Ok(Looked::Missing),
        Err(error) => Ok(Looked::Unreadable(error)),
    }
}
