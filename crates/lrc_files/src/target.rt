//! The file of a fragment that is being written, a batch of records at a time.

ghost use Rattle.std.specs.Prelude.{◌≡◌, length};

use fragment_files::{
    Draft, Failure, batch_of, file_failure, file_len, place_of, record_at, record_len,
    with_fragment,
};
use fragment_header::{Header, PAGE, print};
use fragments::seal_record;
use sha2::{Digest, Sha256};
use std::alloc::Global;
use std::mem;
use std::os::unix::fs::FileExt;

/// The file of a fragment, a batch of its records, and the digest of the records' digests so far.
#[derive(Drop)]
pub struct Target {
    /// The number of the fragment.
    pub fragment: u8,
    /// The file.
    pub draft: Draft,
    /// Why a write failed.
    pub failure: Option<Failure>,
    records: Vec<u8>,
    hasher: Sha256,
}

impl Target {
    /// The target for a file with no record yet.
    pub fn new(
        alloc: Global,
        header: &Header,
        fragment: u8,
        draft: Draft,
    ) -> Result<Target, Failure> {
        let size = record_len(header).saturating_mul(batch_of(header));
        let records = vec![in alloc; 0u8; size]?;
        Ok(Target {
            fragment,
            draft,
            failure: None,
            records,
            hasher: Sha256::new(),
        })
    }

    /// The room for the block of record j of the batch.
    pub fn block_mut(&mut self, header: &Header, j: usize) -> Option<&mut [u8]> {
        let from = record_len(header).saturating_mul(j);
        let to = from.saturating_add(header.width as usize);
        if from <= to && to <= self.records.len() {
            Some(&mut self.records[from..to])
        } else {
            None
        }
    }

    /// Writes the digests of the batch's first `count` records, and the records to the file.
    pub fn write(&mut self, alloc: Global, header: &Header, first: u64, count: usize) {
        let len = record_len(header);
        let size = len.saturating_mul(count);
        if self.failure.is_some() {
            return;
        }
        for j in 0..count {
            self.seal(header, first.saturating_add(j as u64), j);
        }
        if size > self.records.len() {
            return;
        }
        let written = self
            .draft
            .file
            .write_all_at(&self.records[..size], record_at(header, first));
        if let Err(error) = written {
            self.failure = Some(file_failure(
                alloc,
                "can't write",
                self.draft.path.as_str(),
                error,
            ));
        }
    }

    /// Writes the digest of record j of the batch.
    fn seal(&mut self, header: &Header, stripe: u64, j: usize) {
        let place = place_of(header, self.fragment, stripe);
        let width = header.width as usize;
        let len = record_len(header);
        let from = len.saturating_mul(j);
        let to = from.saturating_add(len);
        if from <= to && to <= self.records.len() && to - from == len {
            seal_record(&place, width, &mut self.records[from..to]);
            self.hasher.update(&self.records[from + width..to]);
        }
    }

    /// The digest of the digests of the records that were written. No record is written after it.
    pub fn digest(&mut self) -> [u8; 32] {
        mem::replace(&mut self.hasher, Sha256::new()).finalize()
    }

    /// Writes the header at both ends of the file.
    pub fn finish(&self, alloc: Global, header: &Header) -> Result<(), Failure> {
        if self.fragment >= header.code.fragments() {
            return Ok(());
        }
        let page = print(alloc, &with_fragment(header, self.fragment))?;
        let last = file_len(header).saturating_sub(PAGE as u64);
        for at in [0, last] {
            if let Err(error) = self.draft.file.write_all_at(page.as_slice(), at) {
                let path = self.draft.path.as_str();
                return Err(file_failure(alloc, "can't write", path, error));
            }
        }
        Ok(())
    }
}

/// The failure of the first target that failed.
pub fn failure_of(targets: &mut [Target]) -> Result<(), Failure> {
    for target in targets {
        if let Some(failure) = target.failure.take() {
            return Err(failure);
        }
    }
    Ok(())
}

/// Whether a fragment has this digest in the table of a header.
pub fn has_digest(digests: &[u8; 512], fragment: u8, digest: &[u8; 32]) -> bool {
    if fragment >= 16 {
        return false;
    }
    let at = usize::from(fragment) * 32;
    digest[..] == digests[at..at + 32]
}
