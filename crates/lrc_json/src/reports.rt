//! The object of each command.

use crate::parts::{FileObject, FragmentObject, OtherObject, StopObject, StripesObject};
use serde::Serialize;

/// What `lrc split` wrote of a file.
#[derive(Drop, Serialize)]
pub struct SplitObject {
    /// `split`.
    pub command: &'static str,
    /// The exit status.
    pub status: u8,
    /// The name of the fragments' files.
    pub name: String,
    /// The identifier of the set.
    pub set: String,
    /// The digest of the set.
    pub digest: String,
    /// The name of the code.
    pub code: &'static str,
    /// How many bytes the file has.
    pub bytes: u64,
    /// How many bytes a block has.
    pub width: u32,
    /// How many stripes.
    pub stripes: u64,
    /// The files that were written.
    pub fragments: Vec<FileObject>,
}

/// What `lrc verify` and `lrc show` found of a set.
#[derive(Drop, Serialize)]
pub struct SetObject {
    /// `verify` or `show`.
    pub command: &'static str,
    /// The exit status.
    pub status: u8,
    /// The identifier of the set.
    pub set: String,
    /// The digest of the set.
    pub digest: String,
    /// The digest that was expected, or null.
    pub expected: Option<String>,
    /// The name of the code.
    pub code: &'static str,
    /// How many bytes the file has.
    pub bytes: u64,
    /// How many bytes a block has.
    pub width: u32,
    /// How many stripes.
    pub stripes: u64,
    /// The state of each fragment.
    pub fragments: Vec<FragmentObject>,
    /// Further files of fragments.
    pub again: Vec<FileObject>,
    /// The paths that are not of the set.
    pub others: Vec<OtherObject>,
    /// The sets of lost fragments with an unrecoverable one: their first stripe, and how many.
    pub unrecoverable: Vec<StripesObject>,
    /// How many further fragments may be lost, whichever they are, or null if one is unrecoverable.
    pub margin: Option<u32>,
    /// The rows of the picture: stripes that follow one another, and what is lost in one of them.
    pub rows: Vec<StripesObject>,
}

/// What `lrc repair` did.
#[derive(Drop, Serialize)]
pub struct RepairObject {
    /// `repair`.
    pub command: &'static str,
    /// The exit status.
    pub status: u8,
    /// The identifier of the set.
    pub set: String,
    /// The files that were written.
    pub written: Vec<FileObject>,
    /// The fragments that could not be written.
    pub unrecoverable: Vec<u8>,
    /// How many bytes of records were read.
    pub bytes_read: u64,
    /// The fragments of which a record was read.
    pub read_from: Vec<u8>,
    /// Whether every record was checked.
    pub is_checked: bool,
    /// The paths that are not of the set.
    pub others: Vec<OtherObject>,
}

/// What `lrc join` wrote.
#[derive(Drop, Serialize)]
pub struct JoinObject {
    /// `join`.
    pub command: &'static str,
    /// The exit status.
    pub status: u8,
    /// The identifier of the set.
    pub set: String,
    /// The path of the file, or `-`.
    pub path: String,
    /// How many bytes were written.
    pub bytes: u64,
    /// How many bytes of records were read.
    pub bytes_read: u64,
    /// How many stripes had lost data, which was rebuilt.
    pub rebuilt_stripes: u64,
    /// The stripe that ended the join, or null.
    pub stopped: Option<StopObject>,
    /// The paths that are not of the set.
    pub others: Vec<OtherObject>,
}

/// Why a command stopped before it had a result.
#[derive(Drop, Serialize)]
pub struct FailureObject {
    /// The name of the command.
    pub command: &'static str,
    /// The exit status, 3.
    pub status: u8,
    /// What standard error says.
    pub error: String,
}
