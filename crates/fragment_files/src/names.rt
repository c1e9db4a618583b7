//! Names of the files of fragments: `NAME.NN.lrc`, where NN is the number of the fragment.

use std::alloc::{AllocError, Global};

/// What the name of each fragment's file ends in.
const ENDING: &str = ".lrc";

/// The part of a path behind its last slash.
pub fn base_name(path: &str) -> &str {
    match path.rsplit_once('/') {
        Some((_, name)) => name,
        None => path,
    }
}

/// The folder of a path, or `.` if it has none.
pub fn parent_of(path: &str) -> &str {
    match path.rsplit_once('/') {
        Some(("", _)) => "/",
        Some((folder, _)) => folder,
        None => ".",
    }
}

/// The path of a fragment's file in a folder.
pub fn fragment_path(
    alloc: Global,
    folder: &str,
    name: &str,
    fragment: u8,
) -> Result<String, AllocError> {
    format!(in alloc; "{folder}/{name}.{fragment:02}{ENDING}")
}

/// Whether a name is that of a fragment's file.
pub(crate) fn is_fragment_name(name: &str) -> bool {
    name.ends_with(ENDING)
}

/// The name of the set in the path of a fragment's file, and the number there: `movie` and 3 of
/// `d/movie.03.lrc`.
pub fn stem_of(path: &str) -> Option<(&str, u8)> {
    let stem = base_name(path).strip_suffix(ENDING)?;
    let (name, number) = stem.rsplit_once('.')?;
    match number.parse::<u8>() {
        Ok(number) => Some((name, number)),
        Err(_) => None,
    }
}
