//! A blob without its bytes, which determines the replies.
ghost use Rattle.std.specs.Prelude.{◌≡◌, ℕ, ◌+◌, ◌<◌, ◌≤◌, Some, IsTrue, IfOk};
ghost use Rattle.std.specs.List.{list_any};
ghost use Rattle.std.specs.BTreeSet.{IsOrdered};
ghost use Rattle.lrc_code.specs.Code.{fragment_count, is_lost};
ghost use Rattle.sealed.specs.Blob.{pair_cmp};
ghost use Rattle.history.specs.Metadata.{lost_of, seen_as, is_open_between};
ghost use Rattle.history.specs.Views.{no_such, open_test, open_in_range, read_reply, lose_reply};
ghost use Rattle.history.specs.Views.{repair_reply, restore_reply, stat_reply};

use crate::Note;
use lrc_code::{Code, LostSet, is_open_in};
use sealed::{Width, count_stripes, has_fragment};
use std::alloc::{AllocError, Global};
use std::collections::BTreeSet;

/// The blob of a name, without its bytes.
#[derive(Debug, Drop)]
pub struct BlobMetadata {
    /// The number of the put that stored it, from 1.
    pub version: u64,
    /// Its length in bytes.
    pub len: u64,
    /// The code of its stripes.
    pub code: Code,
    /// The lost fragments, as pairs of a stripe and a fragment, both from 0.
    pub lost: BTreeSet<(u64, u8)>,
}

impl BlobMetadata {
    /// A copy. `AllocError` if memory runs out.
    pub(crate) fn duplicate(&self, alloc: Global) -> Result<BlobMetadata, AllocError>
        ensures copy { IfOk result (λ kept. kept ≡ self.now) }
        ensures rising { IsOrdered pair_cmp self.now.lost }
    {
        Ok(BlobMetadata {
            version: self.version,
            len: self.len,
            code: self.code,
            lost: self.lost.iter().copied().collect(alloc)?,
        })
    }

    /// The lost fragments of a stripe.
    fn lost_in(&self, stripe: u64) -> LostSet
        ensures { (f : ℕ) → f < 16 → is_lost result f ≡ lost_of self.now stripe f }
    {
        let mut lost = LostSet::empty();
        for &(_, f) in self.lost.range((stripe, 0u8)..=(stripe, 15u8)) {
            lost = lost.with(f);
        }
        lost
    }

    /// Whether a fragment is lost and unrecoverable.
    fn is_open(&self, stripe: u64, f: u8) -> bool
        requires { f < fragment_count self.now.code }
        ensures { result ≡ open_test self.now.code (lost_of self.now stripe) f }
    {
        is_open_in(self.code, self.lost_in(stripe), f)
    }

    /// Whether the fragment is an unrecoverable data fragment with a number from `first` to `last`.
    /// A blob's data fragments are numbered over all stripes.
    fn is_open_between(&self, first: u64, last: u64, stripe: u64, f: u8) -> bool
        ensures { result ≡ is_open_between self.now first last (stripe, f) }
    {
        let count = self.code.data_fragments();
        if f >= count {
            return false;
        }
        let number = u128::from(count) * u128::from(stripe) + u128::from(f);
        u128::from(first) <= number && number <= u128::from(last) && self.is_open(stripe, f)
    }

    /// Whether some lost data fragment numbered from `first` to `last` is unrecoverable.
    fn has_open_between(&self, first: u64, last: u64) -> bool
        requires { first ≤ last }
        ensures { result ≡ list_any (is_open_between self.now first last) self.now.lost.keys }
    {
        let count = u64::from(self.code.data_fragments());
        let low = (first / count, 0u8);
        let high = (last / count, u8::MAX);
        self.lost.range(low..=high).any(|&(stripe, f)| self.is_open_between(first, last, stripe, f))
    }

    /// Whether some byte of the range lies in an unrecoverable fragment.
    fn has_open(&self, width: Width, start: u64, len: u64) -> bool
        requires { start + len ≤ self.now.len }
        ensures { result ≡ open_in_range self.now.code width (lost_of self.now) start len }
    {
        if len == 0 {
            return false;
        }
        let width = u64::from(width.get());
        self.has_open_between(start / width, (start + len - 1) / width)
    }

    /// Whether the blob lacks this stripe, or the stripe this fragment.
    fn is_no_fragment(&self, width: Width, stripe: u64, fragment: u64) -> bool
        ensures { result ≡ no_such width (seen_as self.now) stripe fragment }
    {
        !has_fragment(self.code, width, self.len, stripe, fragment)
    }

    /// The reply to a read.
    pub(crate) fn read(&self, width: Width, start: u64, len: u64) -> Note
        ensures { result ≡ read_reply width (Some (seen_as self.now)) start len }
    {
        if start > self.len || len > self.len - start {
            Note::OutOfRange
        } else if self.has_open(width, start, len) {
            Note::Unrecoverable(self.version)
        } else {
            Note::Granted(self.version)
        }
    }

    /// The reply to a loss.
    pub(crate) fn lose(&self, width: Width, stripe: u64, fragment: u64) -> Note
        ensures { result ≡ lose_reply width (Some (seen_as self.now)) stripe fragment }
    {
        if self.is_no_fragment(width, stripe, fragment) {
            Note::NoFragment
        } else if self.lost.contains(&(stripe, fragment as u8)) {
            Note::AlreadyLost
        } else {
            Note::Lost(self.version)
        }
    }

    /// The reply to a repair.
    pub(crate) fn repair(&self, width: Width, stripe: u64, fragment: u64) -> Note
        ensures { result ≡ repair_reply width (Some (seen_as self.now)) stripe fragment }
    {
        if self.is_no_fragment(width, stripe, fragment) {
            Note::NoFragment
        } else if !self.lost.contains(&(stripe, fragment as u8)) {
            Note::NotLost
        } else if self.is_open(stripe, fragment as u8) {
            Note::Unrecoverable(self.version)
        } else {
            Note::Repaired(self.version)
        }
    }

    /// The reply to a restoration of this version.
    pub(crate) fn restore(&self, width: Width, version: u64, stripe: u64, fragment: u64) -> Note
        ensures { result ≡ restore_reply width (Some (seen_as self.now)) version stripe fragment }
    {
        if self.version != version {
            Note::Replaced(self.version)
        } else if self.is_no_fragment(width, stripe, fragment) {
            Note::NoFragment
        } else if self.lost.contains(&(stripe, fragment as u8)) {
            Note::Repaired(self.version)
        } else {
            Note::NotLost
        }
    }

    /// The reply to a stat.
    pub(crate) fn stat(&self, width: Width) -> Note
        ensures { result ≡ stat_reply width (Some (seen_as self.now)) }
    {
        Note::Shape {
            version: self.version,
            len: self.len,
            stripes: count_stripes(self.code, width, self.len),
            lost: self.lost.len() as u64,
        }
    }
}
