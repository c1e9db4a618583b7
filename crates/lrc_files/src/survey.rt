//! What is lost of a set: each record of each fragment is read and checked.

ghost use Rattle.std.specs.Prelude.{◌≡◌, ◌↔◌, ◌<◌, ◌==◌, ◌||◌, ℕ, true, false};
ghost use Rattle.lrc_code.specs.Code.{fragment_count, is_lost};

use crate::lanes::{all_of, read_lanes, reads_of};
use crate::target::has_digest;
use fragment_files::{Failure, Lane, Set, batch_of, lost_of, new_lanes, stripe_count};
use lrc_code::{Code, LostSet};
use sha2::{Digest, Sha256};
use std::alloc::Global;
use std::mem;
use std::thread::Threads;

/// How many rows a picture has at most.
const MOST_ROWS: u64 = 16;

/// The records of one fragment.
#[derive(Drop)]
pub struct Fragment {
    /// The number of the fragment.
    pub number: u8,
    /// How many records are missing or damaged.
    pub lost: u64,
    /// The first stripe with such a record.
    pub first_lost: Option<u64>,
    /// Whether all records are whole, and are not those of the table in the header.
    pub is_altered: bool,
    hasher: Sha256,
}

/// Stripes that have lost the same fragments.
#[derive(Clone, Copy, Debug, PartialEq, Eq, Drop)]
pub struct Loss {
    /// The lost fragments, as bits.
    pub lost: u16,
    /// The first of the stripes.
    pub first: u64,
    /// How many stripes.
    pub stripes: u64,
}

/// What is lost of a set.
#[derive(Drop)]
pub struct Survey {
    /// The fragments of the code.
    pub fragments: Vec<Fragment>,
    /// The sets of lost fragments, in the order of their first stripes.
    pub losses: Vec<Loss>,
    /// For each row of a picture the fragments that are lost in one of its stripes, as bits.
    pub rows: Vec<u16>,
    /// How many records were read.
    pub reads: u64,
}

/// The numbers of a set of fragments, as bits.
pub fn bits_of(code: Code, lost: LostSet) -> u16
    ensures { (i : ℕ) → (is_lost result i ≡ true)
        ↔ ((i < fragment_count code) × (is_lost lost i ≡ true)) }
{
    let mut bits = 0u16;
    for f in 0..code.fragments() {
        bits = with_bit(bits, f, !lost.left(f));
    }
    bits
}

/// The bits with that of a fragment, if it is lost.
fn with_bit(bits: u16, f: u8, is_gone: bool) -> u16
    requires { f < 16 }
    ensures gone { is_gone ≡ true → (i : ℕ) → is_lost result i ≡ (i == f || is_lost bits i) }
    ensures left { is_gone ≡ false → result ≡ bits }
{
    if is_gone { bits | 1 << f } else { bits }
}

impl Fragment {
    /// Counts the records of a lane.
    fn add(&mut self, lane: &Lane, first: u64, count: usize, width: usize) {
        for j in 0..count {
            if lane.is_whole(j) {
                let record = lane.record(j);
                if width <= record.len() {
                    self.hasher.update(&record[width..]);
                }
            } else {
                self.lost = self.lost.saturating_add(1);
                if self.first_lost.is_none() {
                    self.first_lost = Some(first.saturating_add(j as u64));
                }
            }
        }
    }

    /// Compares the digest of the records with the table's.
    fn compare(&mut self, digests: &[u8; 512]) {
        let digest = mem::replace(&mut self.hasher, Sha256::new()).finalize();
        self.is_altered = self.lost == 0 && !has_digest(digests, self.number, &digest);
    }
}

impl Survey {
    /// A survey of no stripe.
    fn new(alloc: Global, code: Code, stripes: u64) -> Result<Survey, Failure> {
        let mut fragments = Vec::new(alloc);
        for number in 0..code.fragments() {
            fragments.push(Fragment {
                number,
                lost: 0,
                first_lost: None,
                is_altered: false,
                hasher: Sha256::new(),
            })?;
        }
        let rows = vec![in alloc; 0u16; stripes.min(MOST_ROWS) as usize]?;
        Ok(Survey {
            fragments,
            losses: Vec::new(alloc),
            rows,
            reads: 0,
        })
    }

    /// Adds what is lost in a stripe.
    fn add_loss(&mut self, lost: u16, stripe: u64, stripes: u64) -> Result<(), Failure> {
        let row = row_of(stripe, stripes);
        if let Some(bits) = self.rows.get_mut(row) {
            *bits |= lost;
        }
        for loss in self.losses.iter_mut() {
            if loss.lost == lost {
                loss.stripes = loss.stripes.saturating_add(1);
                return Ok(());
            }
        }
        self.losses.push(Loss {
            lost,
            first: stripe,
            stripes: 1,
        })?;
        Ok(())
    }

    /// Adds a batch of stripes whose records were read.
    fn add(&mut self, set: &Set, lanes: &[Lane], first: u64, count: usize) -> Result<(), Failure> {
        let width = set.header.width as usize;
        for fragment in self.fragments.iter_mut() {
            if let Some(lane) = lanes.get(usize::from(fragment.number)) {
                fragment.add(lane, first, count, width);
            }
        }
        let stripes = stripe_count(&set.header);
        for j in 0..count {
            let lost = bits_of(set.header.code, lost_of(lanes, j));
            self.add_loss(lost, first.saturating_add(j as u64), stripes)?;
        }
        Ok(())
    }

    /// The fragments whose records are not those of the table in the header, as bits.
    pub fn altered(&self) -> u16 {
        let mut bits = 0u16;
        for fragment in self.fragments.iter() {
            if fragment.is_altered && fragment.number < 16 {
                bits |= 1 << fragment.number;
            }
        }
        bits
    }
}

/// The row of a picture that a stripe is in.
fn row_of(stripe: u64, stripes: u64) -> usize {
    match stripes.div_ceil(MOST_ROWS) {
        0 => 0,
        each => (stripe / each).min(MOST_ROWS) as usize,
    }
}

/// Reads and checks all records of a set, a batch of stripes at a time.
fn survey_batches<R: Threads + Sync>(
    rt: &R,
    set: &Set,
    threads: usize,
    lanes: &mut [Lane],
    found: &mut Survey,
) -> Result<(), Failure> {
    let stripes = stripe_count(&set.header);
    let batch = batch_of(&set.header) as u64;
    let mut first = 0u64;
    for _ in 0..u64::MAX {
        if first >= stripes {
            break;
        }
        let count = batch.min(stripes - first) as usize;
        read_lanes(rt, set, first, count, &all_of(set), lanes, threads);
        found.add(set, lanes, first, count)?;
        first = first.saturating_add(count as u64);
    }
    Ok(())
}

/// Reads and checks all records of a set.
pub fn survey_set<R: Threads + Sync + AllocGlobal>(
    rt: &R,
    set: &Set,
    threads: usize,
) -> Result<Survey, Failure> {
    let alloc = rt.alloc();
    let mut found = Survey::new(alloc, set.header.code, stripe_count(&set.header))?;
    let mut lanes = new_lanes(alloc, &set.header)?;
    survey_batches(rt, set, threads, lanes.as_mut_slice(), &mut found)?;
    for fragment in found.fragments.iter_mut() {
        fragment.compare(&set.header.digests);
    }
    found.reads = reads_of(lanes.as_slice());
    Ok(found)
}
