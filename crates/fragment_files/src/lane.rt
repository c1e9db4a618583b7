//! A lane: the records of one fragment, of some stripes that follow one another.

ghost use Rattle.std.specs.Prelude.{◌≡◌, IfSome, length};

use crate::layout::record_len;
use crate::reading::{is_record, read_record, read_run};
use crate::scanning::Set;
use fragment_header::{Header, NoMemory};
use std::alloc::Global;

/// The most stripes that a lane has records of.
pub const MOST_STRIPES: usize = 64;

/// How many bytes sixteen lanes may take together.
const BUDGET: usize = 16_777_216;

/// Room for a fragment's records of some stripes, and which of them are read and whole.
#[derive(Drop)]
pub struct Lane {
    /// The number of the fragment.
    pub fragment: u8,
    /// The records, one after the other.
    pub records: Vec<u8>,
    /// How many records were read.
    pub reads: u64,
    // how many bytes a record has
    len: usize,
    // a bit for each record: it was looked for; it is whole
    tried: u64,
    whole: u64,
}

/// How many stripes are worked on at once.
pub fn batch_of(header: &Header) -> usize {
    match record_len(header).saturating_mul(16) {
        0 => 1,
        size => (BUDGET / size).clamp(1, MOST_STRIPES),
    }
}

/// The bit of a record.
fn bit(j: usize) -> u64 {
    if j < 64 { 1 << j } else { 0 }
}

/// A lane for each of sixteen fragments.
pub fn new_lanes(alloc: Global, header: &Header) -> Result<Vec<Lane>, NoMemory> {
    let len = record_len(header);
    let size = len.saturating_mul(batch_of(header));
    let mut lanes = Vec::new(alloc);
    for fragment in 0..16u8 {
        let records = vec![in alloc; 0u8; size]?;
        lanes.push(Lane {
            fragment,
            records,
            reads: 0,
            len,
            tried: 0,
            whole: 0,
        })?;
    }
    Ok(lanes)
}

impl Lane {
    /// Forgets all records. Those of a fragment that no file is of count as lost.
    pub fn clear(&mut self, set: &Set) {
        self.whole = 0;
        self.tried = match set.find(self.fragment) {
            Some(_) => 0,
            None => u64::MAX,
        };
    }

    /// Whether the record was looked for.
    pub fn is_tried(&self, j: usize) -> bool {
        self.tried & bit(j) != 0
    }

    /// Whether the record was read, and is whole.
    pub fn is_whole(&self, j: usize) -> bool {
        self.whole & bit(j) != 0
    }

    /// Whether the record was looked for, and is missing or damaged.
    pub fn is_lost(&self, j: usize) -> bool {
        self.is_tried(j) && !self.is_whole(j)
    }

    /// Marks a record as looked for, and as whole or not.
    fn mark(&mut self, j: usize, is_whole: bool) {
        self.tried |= bit(j);
        if is_whole {
            self.whole |= bit(j);
        }
    }

    /// Reads one record, unless it was looked for.
    pub fn read(&mut self, set: &Set, first: u64, j: usize) {
        if self.is_tried(j) {
            return;
        }
        let stripe = first.saturating_add(j as u64);
        let is_whole = match record_mut(&mut self.records, self.len, j) {
            Some(record) => read_record(set, self.fragment, stripe, record),
            None => false,
        };
        self.reads = self.reads.saturating_add(1);
        self.mark(j, is_whole);
    }

    /// Reads the first `count` records in one run, and those that are not whole there one by one.
    pub fn read_all(&mut self, set: &Set, first: u64, count: usize) {
        if self.is_tried(0) {
            return;
        }
        if self.read_at_once(set, first, count) {
            self.reads = self.reads.saturating_add(count as u64);
            for j in 0..count {
                let stripe = first.saturating_add(j as u64);
                if is_record(set, self.fragment, stripe, self.record(j)) {
                    self.mark(j, true);
                }
            }
        }
        for j in 0..count {
            self.read(set, first, j);
        }
    }

    /// Reads the first `count` records, without a check.
    fn read_at_once(&mut self, set: &Set, first: u64, count: usize) -> bool {
        let size = self.len.saturating_mul(count);
        if size > self.records.len() {
            return false;
        }
        read_run(set, self.fragment, first, &mut self.records[..size])
    }

    /// The bytes of a record.
    pub fn record(&self, j: usize) -> &[u8] {
        let from = self.len.saturating_mul(j);
        let to = from.saturating_add(self.len);
        if from <= to && to <= self.records.len() {
            &self.records[from..to]
        } else {
            &[]
        }
    }

    /// The bytes of a record, to be written.
    pub fn record_mut(&mut self, j: usize) -> Option<&mut [u8]> {
        record_mut(&mut self.records, self.len, j)
    }

    /// The block of a record that is whole.
    pub fn block(&self, width: usize, j: usize) -> Option<&[u8]>
        ensures { IfSome result (λ block. length block.now ≡ width) }
    {
        if !self.is_whole(j) {
            return None;
        }
        let record = self.record(j);
        if record.len() < width {
            return None;
        }
        Some(&record[..width])
    }
}

/// Record j of records of `len` bytes each.
fn record_mut(records: &mut Vec<u8>, len: usize, j: usize) -> Option<&mut [u8]> {
    let from = len.saturating_mul(j);
    let to = from.saturating_add(len);
    if from <= to && to <= records.len() {
        Some(&mut records[from..to])
    } else {
        None
    }
}
