//! Files that appear under their names complete or not at all.

use crate::failure::{Failure, file_failure, usage};
use crate::names::parent_of;
use std::fs;
use std::fs::{File, OpenOptions};
use std::io::ErrorKind;
use std::rt::Files;

/// A file that is being written under another name in the same folder: that of the result with
/// `.part` behind it.
#[derive(Drop)]
pub struct Draft {
    /// The file.
    pub file: File,
    /// The path of the result.
    pub path: String,
    part: String,
}

/// Opens a new file to read and write. It follows no symlink.
fn create_part<R: Files<File = File>>(rt: &R, path: &str) -> std::io::Result<File> {
    let mut options = OpenOptions::new();
    options.read(true).write(true).create_new(true);
    options.open(rt, path)
}

/// Opens a new file, in place of one that an interrupted run left.
fn create_over<R: Files<File = File>>(rt: &R, part: &str) -> std::io::Result<File> {
    match create_part(rt, part) {
        Err(error) if error.kind() == ErrorKind::AlreadyExists => {
            fs::remove_file(rt, part)?;
            create_part(rt, part)
        }
        created => created,
    }
}

/// Opens a new file, in place of one that an interrupted run left, or fails with its path.
fn create_or_fail<R: Files<File = File> + AllocGlobal>(
    rt: &R,
    part: &str,
) -> Result<File, Failure> {
    match create_over(rt, part) {
        Ok(file) => Ok(file),
        Err(error) => Err(file_failure(rt.alloc(), "can't create", part, error)),
    }
}

/// Begins a file. What an interrupted run left under the other name is removed.
pub fn begin_draft<R: Files<File = File> + AllocGlobal>(
    rt: &R,
    path: &str,
) -> Result<Draft, Failure> {
    let alloc = rt.alloc();
    let part = format!(in alloc; "{path}.part")?;
    let path = String::from_str(alloc, path)?;
    let file = create_or_fail(rt, part.as_str())?;
    Ok(Draft { file, path, part })
}

/// Fails if there is a file at the path, and it may not be replaced.
pub fn check_free<R: Files<File = File> + AllocGlobal>(
    rt: &R,
    path: &str,
    may_replace: bool,
) -> Result<(), Failure> {
    let alloc = rt.alloc();
    if may_replace || fs::symlink_metadata(rt, path).is_err() {
        return Ok(());
    }
    Err(usage(format!(in alloc; "{path} exists already; --force replaces it")))
}

/// Syncs a folder, so that the names of its files outlive a loss of power. Some file systems can't:
/// what was written there is as safe as they make it.
fn sync_folder<R: Files<File = File>>(rt: &R, folder: &str) {
    if let Ok(opened) = fs::open(rt, folder) {
        let _ = opened.sync_all();
    }
}

impl Draft {
    /// Syncs the file, gives it its name and syncs the folder, if the system can. Without
    /// `may_replace` it fails if the name is taken.
    pub fn publish<R: Files<File = File> + AllocGlobal>(
        &self,
        rt: &R,
        may_replace: bool,
    ) -> Result<(), Failure> {
        let alloc = rt.alloc();
        if let Err(error) = self.file.sync_all() {
            return Err(file_failure(alloc, "can't write", self.part.as_str(), error));
        }
        let named = if may_replace {
            fs::rename(rt, self.part.as_str(), self.path.as_str())
        } else {
            self.publish_new(rt)
        };
        if let Err(error) = named {
            return Err(file_failure(alloc, "can't name", self.path.as_str(), error));
        }
        sync_folder(rt, parent_of(self.path.as_str()));
        Ok(())
    }

    /// Gives the file its name, which no other file has.
    fn publish_new<R: Files<File = File>>(&self, rt: &R) -> std::io::Result<()> {
        fs::hard_link(rt, self.part.as_str(), self.path.as_str())?;
        fs::remove_file(rt, self.part.as_str())
    }

    /// Removes the file.
    pub fn discard<R: Files<File = File>>(&self, rt: &R) {
        let _ = fs::remove_file(rt, self.part.as_str());
    }
}
