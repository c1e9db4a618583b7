//! Why a command stopped.

use std::alloc::{AllocError, AllocFailed, Global};
use std::{fmt, io};

/// Why a command stopped before it had a result.
#[derive(Debug, Drop)]
pub enum Failure {
    /// Out of memory.
    NoMemory,
    /// A file can't be opened, read or written.
    File {
        /// What was tried, as `can't read`.
        action: &'static str,
        /// The file's path.
        path: String,
        /// What the system said.
        error: io::Error,
    },
    /// The words of the command line ask for what can't be done.
    Usage(String),
}

impl fmt::Display for Failure {
    fn fmt<W: fmt::Write>(&self, f: &mut fmt::Formatter<W>) -> fmt::Result {
        match self {
            Failure::NoMemory => f.write_str("out of memory"),
            Failure::File {
                action,
                path,
                error,
            } => write!(f, "{action} {path}: {error}"),
            Failure::Usage(text) => f.write_str(text.as_str()),
        }
    }
}

impl From<AllocError> for Failure {
    fn from(_error: AllocError) -> Failure {
        Failure::NoMemory
    }
}

impl<T: Drop> From<AllocFailed<T>> for Failure {
    fn from(_error: AllocFailed<T>) -> Failure {
        Failure::NoMemory
    }
}

/// The failure of an action at a file.
pub fn file_failure(alloc: Global, action: &'static str, path: &str, error: io::Error) -> Failure {
    match String::from_str(alloc, path) {
        Ok(path) => Failure::File {
            action,
            path,
            error,
        },
        Err(_) => Failure::NoMemory,
    }
}

/// The failure of a command line, with this text, or out of memory where there is no text.
pub fn usage(text: Result<String, AllocError>) -> Failure {
    match text {
        Ok(text) => Failure::Usage(text),
        Err(_) => Failure::NoMemory,
    }
}
