//! The shard of a name.
ghost use Rattle.std.specs.Prelude.{◌≡◌, ◌<◌, ◌≤◌, ◌^◌, fold};
ghost use Rattle.std.specs.Int.{w64};
ghost use Rattle.one_map.specs.Hash.{shard_of, hash_of, hash_step, hash_pieces};

use book::Name;

/// The multiplier of FxHash with 64 bits.
const FACTOR: u64 = 0x517c_c1b7_2722_0a95;

/// The shard of a name among so many: the high half of the name's hash, scaled to the count.
///
/// It spreads names that nobody chose for it. It has no secret: whoever chooses names can choose
/// them all of one shard, which costs speed alone.
pub fn find_shard(name: &Name, count: usize) -> usize
    requires { (0 < count) × (count ≤ 64) }
    ensures value { result ≡ shard_of count name.now }
    ensures below { result < count }
{
    let high = hash(name.as_str().as_bytes()) >> 32;
    ((high * count as u64) >> 32) as usize
}

/// Steps of FxHash over pieces of eight bytes, and then over the remaining bytes.
// Inlined, it would keep its callers from being inlined, and each answer would be copied.
#[inline(never)]
fn hash(bytes: &[u8]) -> u64
    ensures { result ≡ hash_of bytes.now }
{
    let (pieces, rest) = bytes.as_chunks::<8>();
    hash_bytes(hash_words(0, pieces), rest)
}

/// The hash after one number more.
fn step(hash: u64, number: u64) -> u64
    ensures { result ≡ hash_step hash number }
{
    (hash.rotate_left(5) ^ number).wrapping_mul(FACTOR)
}

/// The hash after pieces of eight bytes.
fn hash_words(mut hash: u64, pieces: &[[u8; 8]]) -> u64
    ensures { result ≡ hash_pieces w64 hash pieces.now }
{
    for piece in pieces {
        hash = step(hash, u64::from_le_bytes(*piece));
    }
    hash
}

/// The hash after single bytes.
fn hash_bytes(mut hash: u64, bytes: &[u8]) -> u64
    ensures { result ≡ fold hash_step hash bytes.now }
{
    for b in bytes {
        hash = step(hash, u64::from(*b));
    }
    hash
}
