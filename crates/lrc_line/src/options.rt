//! What a command line asks for.

use lrc_code::Code;

/// A command and its options.
#[derive(Drop)]
pub enum Line<'a> {
    /// `lrc split`.
    Split(SplitLine<'a>),
    /// `lrc verify`.
    Verify(VerifyLine<'a>),
    /// `lrc repair`.
    Repair(RepairLine<'a>),
    /// `lrc join`.
    Join(JoinLine<'a>),
    /// `lrc show`.
    Show(VerifyLine<'a>),
}

impl Line<'_> {
    /// The name of the command.
    pub fn name(&self) -> &'static str {
        match self {
            Line::Split(_) => "split",
            Line::Verify(_) => "verify",
            Line::Repair(_) => "repair",
            Line::Join(_) => "join",
            Line::Show(_) => "show",
        }
    }

    /// Whether the report is JSON.
    pub fn is_json(&self) -> bool {
        match self {
            Line::Split(line) => line.json,
            Line::Verify(line) => line.json,
            Line::Repair(line) => line.json,
            Line::Join(line) => line.json,
            Line::Show(line) => line.json,
        }
    }
}

/// The options of `lrc split`.
#[derive(Drop)]
pub struct SplitLine<'a> {
    /// The files.
    pub files: Vec<&'a str>,
    /// The folders of the fragments.
    pub folders: Vec<&'a str>,
    /// The name of the fragments' files, in place of the file's.
    pub name: Option<&'a str>,
    /// The code.
    pub code: Code,
    /// How many bytes a block has.
    pub width: u32,
    /// The identifier of the set, in place of a random one.
    pub id: Option<[u8; 16]>,
    /// Whether fragments of this name are replaced.
    pub force: bool,
    /// Whether the report is JSON.
    pub json: bool,
    /// How many threads work.
    pub threads: usize,
}

/// The options of `lrc verify` and `lrc show`.
#[derive(Drop)]
pub struct VerifyLine<'a> {
    /// The fragments, and folders of fragments.
    pub fragments: Vec<&'a str>,
    /// The identifier of the set.
    pub id: Option<[u8; 16]>,
    /// The digest that the set must have.
    pub expect: Option<[u8; 32]>,
    /// Whether the report is JSON.
    pub json: bool,
    /// How many threads work.
    pub threads: usize,
}

/// The options of `lrc repair`.
#[derive(Drop)]
pub struct RepairLine<'a> {
    /// The fragments, and folders of fragments.
    pub fragments: Vec<&'a str>,
    /// The folders of missing fragments.
    pub folders: Vec<&'a str>,
    /// The identifier of the set.
    pub id: Option<[u8; 16]>,
    /// Whether every record is checked first.
    pub check: bool,
    /// Whether the report is JSON.
    pub json: bool,
    /// How many threads work.
    pub threads: usize,
}

/// The options of `lrc join`.
#[derive(Drop)]
pub struct JoinLine<'a> {
    /// The fragments, and folders of fragments.
    pub fragments: Vec<&'a str>,
    /// The path of the file, or `-`.
    pub to: &'a str,
    /// The first byte, and the byte behind the last or none for the file's end.
    pub range: Option<(u64, Option<u64>)>,
    /// The identifier of the set.
    pub id: Option<[u8; 16]>,
    /// Whether a file of this name is replaced.
    pub force: bool,
    /// Whether the report is JSON.
    pub json: bool,
    /// How many threads work.
    pub threads: usize,
}
