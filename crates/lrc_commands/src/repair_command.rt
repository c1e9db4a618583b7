//! `lrc repair`.

use crate::check::set_of;
use crate::folders::check_folders;
use fragment_files::{
    Failure, Reason, Set, Stray, fragment_path, parent_of, record_len, stem_of, stripe_count, usage,
};
use lrc_code::{LostSet, is_open_in};
use lrc_files::{Repaired, Status, Wanted, folder_of, repair, survey_set};
use lrc_json::{FileObject, RepairObject, push_object};
use lrc_line::RepairLine;
use lrc_report::{add_numbers, add_others, file_object, has, push_hex, push_numbers, push_strays};
use std::alloc::Global;
use std::fmt::Write;
use std::fs::File;
use std::mem;
use std::rt::Files;
use std::thread::Threads;

/// How many times fragments are written at most: each time but the last finds a further damaged or
/// unrecoverable one.
const MOST_ROUNDS: u32 = 34;

/// What was done so far.
#[derive(Drop)]
struct Progress {
    /// Fragments that are known to be damaged, as bits.
    damaged: u16,
    /// Fragments that can't be had.
    hopeless: u16,
    /// Fragments that were written.
    written: u16,
    /// Whether every record was checked.
    is_checked: bool,
    /// How many records of each fragment were read.
    reads: [u64; 16],
    /// How many bytes a record has.
    record: u64,
    /// The identifier of the set.
    set: [u8; 16],
    /// The files that were written.
    files: Vec<FileObject>,
    /// The paths that are not of the set, at the last look.
    strays: Vec<Stray>,
}

/// The fragments with no file that has both headers and the right length, as bits.
fn incomplete_of(set: &Set) -> u16 {
    let mut bits = 0u16;
    for number in 0..set.header.code.fragments() {
        if number < 16 && !has_complete(set, number) {
            bits |= 1 << number;
        }
    }
    bits
}

/// Whether a fragment has a file with both headers and the right length.
fn has_complete(set: &Set, number: u8) -> bool {
    for source in set.sources.iter() {
        if source.header.fragment == number && source.is_complete() {
            return true;
        }
    }
    false
}

/// The fragments of these that are unrecoverable if these are lost, as bits.
fn open_of(set: &Set, wanted: u16, lost: LostSet) -> u16 {
    let code = set.header.code;
    let mut bits = 0u16;
    for number in 0..code.fragments() {
        if number < 16 && has(wanted, number) && is_open_in(code, lost, number) {
            bits |= 1 << number;
        }
    }
    bits
}

/// The name of the set's files.
fn name_of(set: &Set) -> &str {
    match set.sources.first() {
        Some(source) => match stem_of(source.path.as_str()) {
            Some((name, _)) => name,
            None => "fragment",
        },
        None => "fragment",
    }
}

/// The path among the words that a missing fragment should have.
fn path_in_words<'a>(words: &[&'a str], number: u8) -> Option<&'a str> {
    for word in words {
        let word: &'a str = word;
        if let Some((_, other)) = stem_of(word) {
            if other == number {
                return Some(word);
            }
        }
    }
    None
}

/// The folder of the set's first file.
fn near_of(set: &Set) -> &str {
    match set.sources.first() {
        Some(source) => parent_of(source.path.as_str()),
        None => ".",
    }
}

/// Where a fragment is written: over its file, if it has one. Else at the path of a word that names
/// it, or in a folder: one of `--to`, or of the words, or that of the set's first file.
fn path_of(
    alloc: Global,
    set: &Set,
    line: &RepairLine,
    folders: &[&str],
    number: u8,
) -> Result<String, Failure> {
    if let Some(source) = set.find(number) {
        return Ok(source.path.clone()?);
    }
    if let Some(word) = path_in_words(line.fragments.as_slice(), number) {
        return Ok(String::from_str(alloc, word)?);
    }
    if let Some(folder) = folder_of(line.folders.as_slice(), number) {
        return Ok(fragment_path(alloc, folder, name_of(set), number)?);
    }
    if let Some(folder) = folder_of(folders, number) {
        return Ok(fragment_path(alloc, folder, name_of(set), number)?);
    }
    Ok(fragment_path(alloc, near_of(set), name_of(set), number)?)
}

/// The words that are folders.
fn folders_of<'a, R: Files<File = File> + AllocGlobal>(
    rt: &R,
    words: &[&'a str],
) -> Result<Vec<&'a str>, Failure> {
    let mut folders = Vec::new(rt.alloc());
    for word in words {
        let word: &'a str = word;
        if fragment_files::is_folder(rt, word) {
            folders.push(word)?;
        }
    }
    Ok(folders)
}

/// The fragments to write, and where.
fn wanted_of<R: Files<File = File> + AllocGlobal>(
    rt: &R,
    set: &Set,
    line: &RepairLine,
    bits: u16,
) -> Result<Vec<Wanted>, Failure> {
    let alloc = rt.alloc();
    let folders = folders_of(rt, line.fragments.as_slice())?;
    let mut wanted = Vec::new(alloc);
    for number in 0..set.header.code.fragments() {
        if has(bits, number) {
            let path = path_of(alloc, set, line, folders.as_slice(), number)?;
            wanted.push(Wanted {
                fragment: number,
                path,
            })?;
        }
    }
    Ok(wanted)
}

impl Progress {
    /// Nothing is done yet.
    fn new(alloc: Global) -> Progress {
        Progress {
            damaged: 0,
            hopeless: 0,
            written: 0,
            is_checked: false,
            reads: [0; 16],
            record: 0,
            set: [0; 16],
            files: Vec::new(alloc),
            strays: Vec::new(alloc),
        }
    }

    /// Adds the records that a repair read.
    fn add_reads(&mut self, set: &Set, reads: &[u64; 16]) {
        self.record = record_len(&set.header) as u64;
        for number in 0..16usize {
            self.reads[number] = self.reads[number].saturating_add(reads[number]);
        }
    }

    /// Checks every record.
    fn check<R: Threads + Sync + AllocGlobal>(
        &mut self,
        rt: &R,
        set: &Set,
        threads: usize,
    ) -> Result<(), Failure> {
        let found = survey_set(rt, set, threads)?;
        let mut reads = [0u64; 16];
        for fragment in found.fragments.iter() {
            let number = fragment.number;
            if number < 16 && set.find(number).is_some() {
                reads[usize::from(number)] = stripe_count(&set.header);
            }
            if number < 16 && (fragment.lost > 0 || fragment.is_altered) {
                self.damaged |= 1 << number;
            }
        }
        self.add_reads(set, &reads);
        self.is_checked = true;
        Ok(())
    }

    /// Adds what a repair did.
    fn add(
        &mut self,
        alloc: Global,
        set: &Set,
        bits: u16,
        wanted: &[Wanted],
        done: &Repaired,
    ) -> Result<(), Failure> {
        self.add_reads(set, &done.reads);
        if let Some(stopped) = done.stopped {
            let open = open_of(set, bits, stopped.lost);
            self.hopeless |= if open == 0 { bits } else { open };
        } else if let Some(number) = done.altered {
            self.hopeless |= if number < 16 { 1 << number } else { bits };
        } else {
            self.written |= bits;
            self.damaged = (self.damaged | done.damaged) & !self.written;
            for one in wanted {
                let file = file_object(alloc, one.fragment, one.path.as_str())?;
                self.files.push(file)?;
            }
        }
        Ok(())
    }

    /// How many bytes were read.
    fn bytes_read(&self) -> u64 {
        let mut records = 0u64;
        for reads in self.reads.iter() {
            records = records.saturating_add(*reads);
        }
        records.saturating_mul(self.record)
    }

    /// The fragments of which a record was read, as bits.
    fn read_from(&self) -> u16 {
        let mut bits = 0u16;
        for number in 0..16u8 {
            if self.reads[usize::from(number)] > 0 {
                bits |= 1 << number;
            }
        }
        bits
    }
}

/// Writes these fragments.
fn write_again<R: Files<File = File> + AllocGlobal + Threads + Sync>(
    rt: &R,
    line: &RepairLine,
    set: &Set,
    bits: u16,
    progress: &mut Progress,
) -> Result<(), Failure> {
    let wanted = wanted_of(rt, set, line, bits)?;
    let done = repair(rt, set, wanted.as_slice(), line.threads)?;
    progress.add(rt.alloc(), set, bits, wanted.as_slice(), &done)
}

/// Writes fragments of a set once. Returns false if there is nothing more to write.
fn repair_set<R: Files<File = File> + AllocGlobal + Threads + Sync>(
    rt: &R,
    line: &RepairLine,
    set: &Set,
    progress: &mut Progress,
) -> Result<bool, Failure> {
    if line.check && !progress.is_checked {
        progress.check(rt, set, line.threads)?;
    }
    let known = incomplete_of(set) | progress.damaged;
    let mut bits = known & !progress.hopeless & !progress.written;
    if stripe_count(&set.header) > 0 {
        let open = open_of(set, bits, set.missing());
        progress.hopeless |= open;
        bits &= !open;
    }
    if bits != 0 {
        write_again(rt, line, set, bits, progress)?;
        return Ok(true);
    }
    let is_done = progress.is_checked || progress.written != 0 || progress.hopeless != 0;
    if !is_done {
        progress.check(rt, set, line.threads)?;
    }
    Ok(!is_done && progress.damaged != 0)
}

/// Whether a word names no file, and is not the path of a fragment, which could be written there.
fn is_unknown(stray: &Stray) -> bool {
    match &stray.reason {
        Reason::Missing => stem_of(stray.path.as_str()).is_none(),
        _ => false,
    }
}

/// Fails if a word names nothing: the fragments of a misspelled folder would be written elsewhere.
fn check_words(alloc: Global, strays: &[Stray]) -> Result<(), Failure> {
    for stray in strays {
        if is_unknown(stray) {
            let path = stray.path.as_str();
            return Err(usage(format!(in alloc;
                "there is no file or folder {path}: correct the word, or leave it out"
            )));
        }
    }
    Ok(())
}

/// Writes fragments once. Returns false if there is nothing more to write.
fn repair_once<R: Files<File = File> + AllocGlobal + Threads + Sync + Clone + Drop>(
    rt: &R,
    line: &RepairLine,
    progress: &mut Progress,
) -> Result<bool, Failure> {
    let (set, strays) = set_of(rt, line.fragments.as_slice(), line.id)?;
    check_words(rt.alloc(), strays.as_slice())?;
    progress.set = set.header.set;
    progress.strays = strays;
    repair_set(rt, line, &set, progress)
}

/// Appends the report.
fn push_report(text: &mut String, progress: &Progress) -> Result<(), Failure> {
    push_strays(text, progress.strays.as_slice())?;
    for file in progress.files.iter() {
        let number = file.number;
        let path = file.path.as_str();
        writeln!(text, "{number:>3} written {path}")?;
    }
    for number in 0..16u8 {
        if has(progress.hopeless, number) {
            writeln!(text, "{number:>3} unrecoverable")?;
        }
    }
    if progress.written == 0 && progress.hopeless == 0 {
        text.push_str("all fragments are whole\n")?;
    }
    let bytes = progress.bytes_read();
    write!(text, "{bytes} bytes read, of the fragments ")?;
    push_numbers(text, progress.read_from())?;
    text.push('\n')?;
    if !progress.is_checked {
        text.push_str("records that the repair did not need were not checked: --check does it\n")?;
    }
    Ok(())
}

/// The object of a repair, which takes the files that were written, without its texts and numbers.
fn bare_object(alloc: Global, progress: &mut Progress, status: Status) -> RepairObject {
    RepairObject {
        command: "repair",
        status: status.code(),
        set: String::new(alloc),
        written: mem::replace(&mut progress.files, Vec::new(alloc)),
        unrecoverable: Vec::new(alloc),
        bytes_read: progress.bytes_read(),
        read_from: Vec::new(alloc),
        is_checked: progress.is_checked,
        others: Vec::new(alloc),
    }
}

/// Appends the object of a repair.
fn push_repair_object(
    alloc: Global,
    text: &mut String,
    progress: &mut Progress,
    status: Status,
) -> Result<(), Failure> {
    let set = progress.set;
    let mut object = bare_object(alloc, progress, status);
    push_hex(&mut object.set, &set)?;
    add_numbers(&mut object.unrecoverable, progress.hopeless)?;
    add_numbers(&mut object.read_from, progress.read_from())?;
    add_others(alloc, &mut object.others, progress.strays.as_slice())?;
    push_object(text, alloc, &object)?;
    Ok(())
}

/// Runs `lrc repair`, and appends its report.
pub(crate) fn repair_files<R: Files<File = File> + AllocGlobal + Threads + Sync + Clone + Drop>(
    rt: &R,
    line: &RepairLine,
    text: &mut String,
) -> Result<Status, Failure> {
    check_folders(rt, line.folders.as_slice())?;
    let mut progress = Progress::new(rt.alloc());
    for _ in 0..MOST_ROUNDS {
        if !repair_once(rt, line, &mut progress)? {
            break;
        }
    }
    let status = if progress.hopeless == 0 {
        Status::Whole
    } else {
        Status::Unrecoverable
    };
    if line.json {
        push_repair_object(rt.alloc(), text, &mut progress, status)?;
    } else {
        push_report(text, &progress)?;
    }
    Ok(status)
}
