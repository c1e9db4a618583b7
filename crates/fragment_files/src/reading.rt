//! Reads of whole records.

ghost use Rattle.std.specs.Prelude.{◌≡◌, ◌↔◌, IsTrue, length};
ghost use Rattle.fragment_files.specs.Layout.{HoldsRecord};

use crate::layout::{place_of, record_at, record_len};
use crate::scanning::Set;
use fragments::is_whole;
use std::os::unix::fs::FileExt;

/// Whether the bytes are the record of this fragment and stripe.
pub fn is_record(set: &Set, fragment: u8, stripe: u64, bytes: &[u8]) -> bool
    ensures { IsTrue result ↔ HoldsRecord set.now.header fragment stripe bytes.now }
{
    if bytes.len() != record_len(&set.header) {
        return false;
    }
    let place = place_of(&set.header, fragment, stripe);
    is_whole(&place, set.header.width as usize, bytes)
}

/// Reads a fragment's record of a stripe from the first file that has it whole. Returns false if
/// none has.
pub fn read_record(set: &Set, fragment: u8, stripe: u64, bytes: &mut [u8]) -> bool
    ensures count { length bytes.new ≡ length bytes.old }
    ensures whole { IsTrue result → HoldsRecord set.now.header fragment stripe bytes.new }
{
    let at = record_at(&set.header, stripe);
    for source in set.sources.iter() {
        if source.header.fragment == fragment
            && source.file.read_exact_at(bytes, at).is_ok()
            && is_record(set, fragment, stripe, bytes)
        {
            return true;
        }
    }
    false
}

/// Reads a fragment's records of stripes that follow one another, from its first file, without a
/// check. Returns false if the file does not have them all.
pub fn read_run(set: &Set, fragment: u8, stripe: u64, records: &mut [u8]) -> bool
    ensures { length records.new ≡ length records.old }
{
    match set.find(fragment) {
        Some(source) => source
            .file
            .read_exact_at(records, record_at(&set.header, stripe))
            .is_ok(),
        None => false,
    }
}
