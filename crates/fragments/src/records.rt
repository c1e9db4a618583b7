//! A record: the bytes of a block, and the digest of where it stands and of these bytes.

ghost use Rattle.std.specs.Prelude.{◌≡◌, ◌≤◌, ◌+◌, ◌-◌, ◌++◌, ◌↔◌, IsTrue, length, take};
ghost use Rattle.sha2.specs.Sha256.{sha256};
ghost use Rattle.fragments.specs.Record.{IsRecord, place_bytes};

use sha2::{Digest, Sha256};

/// How many bytes the digest of a record has. They follow the block's.
pub const DIGEST: usize = 32;

/// Where a block stands.
#[derive(Clone, Copy, Debug, PartialEq, Eq)]
pub struct Place {
    /// The identifier of the set.
    pub set: [u8; 16],
    /// The number of the fragment.
    pub fragment: u64,
    /// The number of the stripe.
    pub stripe: u64,
}

/// The digest of a block at a place.
fn digest_at(place: &Place, block: &[u8]) -> [u8; 32]
    ensures { result ≡ sha256 (place_bytes place.now ++ block.now) }
{
    let set = place.set;
    let mut hasher = Sha256::new();
    hasher.update(&set[..]);
    hasher.update(&place.fragment.to_le_bytes()[..]);
    hasher.update(&place.stripe.to_le_bytes()[..]);
    hasher.update(block);
    hasher.finalize()
}

/// Writes the digest of a record's block behind the block, for this place. The block is unchanged.
pub fn seal_record(place: &Place, width: usize, bytes: &mut [u8])
    requires { length bytes.old ≡ width + 32 }
    ensures block { take width bytes.new ≡ take width bytes.old }
    ensures sealed { IsRecord place.now width bytes.new }
{
    let (block, digest) = bytes.split_at_mut(width);
    digest.copy_from_slice(&digest_at(place, block));
}

/// Whether the bytes are the record of their block at this place, and of no other block there:
/// whether the digest is that of the place and of the block.
pub fn is_whole(place: &Place, width: usize, bytes: &[u8]) -> bool
    requires { length bytes.now ≡ width + 32 }
    ensures { IsTrue result ↔ IsRecord place.now width bytes.now }
{
    let (block, digest) = bytes.split_at(width);
    let found = digest_at(place, block);
    &found[..] == digest
}
