//! Which of the files that are named make a set.

use crate::failure::{Failure, file_failure};
use crate::names::is_fragment_name;
use crate::source::{Looked, Source, look};
use fragment_header::Header;
use lrc_code::LostSet;
use std::alloc::{AllocError, Global};
use std::fs::File;
use std::rt::Files;
use std::{fs, io};

/// Why a path is not that of a fragment of the set.
#[derive(Drop)]
pub enum Reason {
    /// There is no such file.
    Missing,
    /// It has no header that is whole.
    NoHeader,
    /// It can't be opened or read.
    Unreadable(io::Error),
    /// It is a fragment of another set, which has this identifier.
    OtherSet([u8; 16]),
}

/// A path that is not that of a fragment of the set.
#[derive(Drop)]
pub struct Stray {
    /// The path.
    pub path: String,
    /// Why.
    pub reason: Reason,
}

/// The fragments of one file.
#[derive(Drop)]
pub struct Set {
    /// What the headers say, with the number 0.
    pub header: Header,
    /// The digest of the set.
    pub key: [u8; 32],
    /// The files. Two may have one number.
    pub sources: Vec<Source>,
}

/// What was found at the paths of a command line.
#[derive(Drop)]
pub struct Found {
    /// The fragments.
    pub sources: Vec<Source>,
    /// The other paths, also those with no file.
    pub strays: Vec<Stray>,
}

impl Set {
    /// The fragments that no file is of.
    pub fn missing(&self) -> LostSet {
        let mut missing = LostSet::empty();
        for f in 0..self.header.code.fragments() {
            if self.find(f).is_none() {
                missing = missing.with(f);
            }
        }
        missing
    }

    /// The first file of a fragment.
    pub fn find(&self, fragment: u8) -> Option<&Source> {
        for source in self.sources.iter() {
            if source.header.fragment == fragment {
                return Some(source);
            }
        }
        None
    }
}

/// Appends the name of a file, if it is that of a fragment.
fn push_name(names: &mut Vec<String>, alloc: Global, name: &str) -> Result<(), AllocError> {
    if is_fragment_name(name) {
        names.push(String::from_str(alloc, name)?)?;
    }
    Ok(())
}

/// Appends the names of the files in a folder that are named as fragments are.
fn push_names<R: Files<File = File> + AllocGlobal + Clone + Drop>(
    rt: &R,
    folder: &str,
    names: &mut Vec<String>,
) -> io::Result<()> {
    for entry in fs::read_dir(rt, folder)? {
        let entry = entry?;
        push_name(names, rt.alloc(), entry.file_name())?;
    }
    Ok(())
}

/// Appends the paths of files in a folder.
fn push_paths(
    alloc: Global,
    folder: &str,
    names: &[String],
    paths: &mut Vec<String>,
) -> Result<(), Failure> {
    for name in names {
        paths.push(format!(in alloc; "{folder}/{name}")?)?;
    }
    Ok(())
}

/// Appends the paths of the files in a folder that are named as fragments are, in order.
fn list_folder<R: Files<File = File> + AllocGlobal + Clone + Drop>(
    rt: &R,
    folder: &str,
    paths: &mut Vec<String>,
) -> Result<(), Failure> {
    let alloc = rt.alloc();
    let mut names = Vec::new(alloc);
    if let Err(error) = push_names(rt, folder, &mut names) {
        return Err(file_failure(alloc, "can't read", folder, error));
    }
    names.sort()?;
    push_paths(alloc, folder, names.as_slice(), paths)
}

/// Whether a path is that of a folder.
pub fn is_folder<R: Files<File = File>>(rt: &R, path: &str) -> bool {
    match fs::metadata(rt, path) {
        Ok(metadata) => metadata.is_dir(),
        Err(_) => false,
    }
}

/// Whether a path is among these.
fn has_path(paths: &[String], path: &str) -> bool {
    for other in paths {
        if other.as_str() == path {
            return true;
        }
    }
    false
}

/// Adds the paths of the files that a word names, each once.
fn add_word<R: Files<File = File> + AllocGlobal + Clone + Drop>(
    rt: &R,
    word: &str,
    paths: &mut Vec<String>,
) -> Result<(), Failure> {
    if is_folder(rt, word) {
        return list_folder(rt, word, paths);
    }
    if !has_path(paths.as_slice(), word) {
        paths.push(String::from_str(rt.alloc(), word)?)?;
    }
    Ok(())
}

/// Looks at a path, and adds what is found there.
fn add_path<R: Files<File = File> + AllocGlobal>(
    rt: &R,
    path: &str,
    found: &mut Found,
) -> Result<(), Failure> {
    let looked = look(rt, path)?;
    found.add(String::from_str(rt.alloc(), path)?, looked)
}

/// Looks at the files that words name: at files, and at the files in folders whose names end in
/// `.lrc`.
pub fn scan<R: Files<File = File> + AllocGlobal + Clone + Drop>(
    rt: &R,
    words: &[&str],
) -> Result<Found, Failure> {
    let alloc = rt.alloc();
    let mut paths = Vec::new(alloc);
    for word in words {
        add_word(rt, word, &mut paths)?;
    }
    let mut found = Found {
        sources: Vec::new(alloc),
        strays: Vec::new(alloc),
    };
    for path in paths.iter() {
        add_path(rt, path.as_str(), &mut found)?;
    }
    Ok(found)
}

impl Found {
    /// Adds what was found at a path.
    fn add(&mut self, path: String, looked: Looked) -> Result<(), Failure> {
        match looked {
            Looked::Fragment(source) => self.sources.push(source)?,
            Looked::Missing => self.add_stray(path, Reason::Missing)?,
            Looked::NoHeader => self.add_stray(path, Reason::NoHeader)?,
            Looked::Unreadable(error) => self.add_stray(path, Reason::Unreadable(error))?,
        }
        Ok(())
    }

    /// Adds a path that is not that of a fragment.
    fn add_stray(&mut self, path: String, reason: Reason) -> Result<(), AllocError> {
        self.strays.push(Stray { path, reason })?;
        Ok(())
    }
}
