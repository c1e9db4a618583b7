//! Folders that files are written to.

use fragment_files::{Failure, file_failure};
use std::fs::File;
use std::rt::Files;
use std::{fs, io};

/// Fails with the system's reason if there is no such folder.
pub(crate) fn check_folder<R: Files<File = File> + AllocGlobal>(
    rt: &R,
    folder: &str,
) -> Result<(), Failure> {
    let error = match fs::metadata(rt, folder) {
        Ok(metadata) if metadata.is_dir() => return Ok(()),
        Ok(_) => io::Error::from(io::ErrorKind::NotADirectory),
        Err(error) => error,
    };
    Err(file_failure(rt.alloc(), "can't write to the folder", folder, error))
}

/// Fails with the system's reason if one of these folders is not there.
pub(crate) fn check_folders<R: Files<File = File> + AllocGlobal>(
    rt: &R,
    folders: &[&str],
) -> Result<(), Failure> {
    for folder in folders {
        check_folder(rt, folder)?;
    }
    Ok(())
}
