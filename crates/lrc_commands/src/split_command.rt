//! `lrc split`.

use crate::folders::check_folders;
use fragment_files::{
    Failure, base_name, file_failure, fragment_path, set_digest, stripe_count, usage,
};
use fragment_header::Header;
use lrc_files::{SplitPlan, Status, folder_of, split};
use lrc_json::{FileObject, SplitObject, push_object};
use lrc_line::SplitLine;
use lrc_report::{code_name, plural, push_hex};
use std::alloc::Global;
use std::fmt::Write;
use std::fs;
use std::fs::File;
use std::random::RandomSource;
use std::rt::Files;
use std::thread::Threads;

/// How to split the files of a command line. Each has an identifier of its own.
fn split_of<R: RandomSource + AllocGlobal>(rt: &R, line: &SplitLine) -> Result<SplitPlan, Failure> {
    let mut id = [0u8; 16];
    match line.id {
        Some(given) => id = given,
        None => {
            if let Err(error) = rt.fill_bytes(&mut id) {
                return Err(file_failure(rt.alloc(), "can't read", "random bytes", error));
            }
        }
    }
    Ok(SplitPlan {
        code: line.code,
        width: line.width,
        id,
        may_replace: line.force,
        threads: line.threads,
    })
}

/// Appends what was written.
fn push_made<R: AllocGlobal>(
    rt: &R,
    text: &mut String,
    name: &str,
    header: &Header,
) -> Result<(), Failure> {
    let len = header.len;
    let count = header.code.fragments();
    let ending = plural(len);
    write!(
        text,
        "{name}: {len} byte{ending} in {count} fragments, set "
    )?;
    let set = header.set;
    push_hex(text, &set)?;
    text.push_str("\ndigest ")?;
    let digest = set_digest(rt.alloc(), header)?;
    push_hex(text, &digest)?;
    text.push('\n')?;
    Ok(())
}

/// The object of a fragment's file in a folder.
fn written_object(
    alloc: Global,
    folder: &str,
    name: &str,
    number: u8,
) -> Result<FileObject, Failure> {
    let path = fragment_path(alloc, folder, name, number)?;
    Ok(FileObject { number, path })
}

/// Appends the objects of the files that were written.
fn add_written(
    alloc: Global,
    written: &mut Vec<FileObject>,
    folders: &[&str],
    name: &str,
    count: u8,
) -> Result<(), Failure> {
    for number in 0..count {
        if let Some(folder) = folder_of(folders, number) {
            written.push(written_object(alloc, folder, name, number)?)?;
        }
    }
    Ok(())
}

/// The object of what was written, without its texts and lists.
fn bare_object(alloc: Global, header: &Header) -> SplitObject {
    SplitObject {
        command: "split",
        status: Status::Whole.code(),
        name: String::new(alloc),
        set: String::new(alloc),
        digest: String::new(alloc),
        code: code_name(header.code),
        bytes: header.len,
        width: header.width,
        stripes: stripe_count(header),
        fragments: Vec::new(alloc),
    }
}

/// Fills in the texts and lists.
fn fill(
    alloc: Global,
    object: &mut SplitObject,
    line: &SplitLine,
    name: &str,
    header: &Header,
) -> Result<(), Failure> {
    let id = header.set;
    let digest = set_digest(alloc, header)?;
    let count = header.code.fragments();
    object.name.push_str(name)?;
    push_hex(&mut object.set, &id)?;
    push_hex(&mut object.digest, &digest)?;
    add_written(
        alloc,
        &mut object.fragments,
        line.folders.as_slice(),
        name,
        count,
    )
}

/// Appends the object of what was written.
fn push_split_object(
    alloc: Global,
    text: &mut String,
    line: &SplitLine,
    name: &str,
    header: &Header,
) -> Result<(), Failure> {
    let mut object = bare_object(alloc, header);
    fill(alloc, &mut object, line, name, header)?;
    push_object(text, alloc, &object)?;
    Ok(())
}

/// Splits standard input.
fn split_input<R: Files<File = File> + AllocGlobal + Threads + Sync + RandomSource + Input>(
    rt: &R,
    line: &SplitLine,
    name: &str,
) -> Result<Header, Failure> {
    let how = split_of(rt, line)?;
    let mut reader = rt.reader();
    split(
        rt,
        &how,
        &mut reader,
        "standard input",
        name,
        line.folders.as_slice(),
    )
}

/// Splits a file.
fn split_file<R: Files<File = File> + AllocGlobal + Threads + Sync + RandomSource>(
    rt: &R,
    line: &SplitLine,
    path: &str,
    name: &str,
) -> Result<Header, Failure> {
    let how = split_of(rt, line)?;
    match fs::open(rt, path) {
        Ok(mut file) => split(rt, &how, &mut file, path, name, line.folders.as_slice()),
        Err(error) => Err(file_failure(rt.alloc(), "can't read", path, error)),
    }
}

/// Runs `lrc split`, and appends what was written.
pub(crate) fn split_files<
    R: Files<File = File> + AllocGlobal + Threads + Sync + RandomSource + Input,
>(rt: &R, line: &SplitLine, text: &mut String) -> Result<Status, Failure> {
    if line.files.len() > 1 && (line.name.is_some() || line.id.is_some()) {
        let refusal = format!(in rt.alloc(); "--name and --id are for one file");
        return Err(usage(refusal));
    }
    check_folders(rt, line.folders.as_slice())?;
    for file in line.files.iter() {
        let file: &str = file;
        let given = if file == "-" {
            "stdin"
        } else {
            base_name(file)
        };
        let name = line.name.unwrap_or(given);
        let header = if file == "-" {
            split_input(rt, line, name)?
        } else {
            split_file(rt, line, file, name)?
        };
        if line.json {
            push_split_object(rt.alloc(), text, line, name, &header)?;
        } else {
            push_made(rt, text, name, &header)?;
        }
    }
    Ok(Status::Whole)
}
