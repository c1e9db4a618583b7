//! A run of bytes that is written in place where it has one owner.
ghost use Rattle.std.specs.Prelude.{◌≡◌, ◌≢◌, ◌+◌, ◌*◌, ◌≤◌, ℕ, length, slice_range};
ghost use Rattle.std.specs.Bool.{OnTrue, OnFalse};

use bytes::{Bytes, BytesMut};
use std::marker::Model;
use std::mem;

/// Bytes that a caller gave, and may share, or bytes of this owner alone.
#[derive(Drop)]
pub(crate) struct Buffer {
    held: Held,
}

/// Whose the bytes are.
#[derive(Drop)]
enum Held {
    /// They may have other owners.
    Shared(Bytes),
    /// They have none.
    Own(BytesMut),
}

impl Model for Buffer {
    ghost use Rattle.std.specs.Prelude.{List, ℕ};
    ghost use Rattle.sealed.specs.Buffer.{bytes_of};

    ghost Value = { List ℕ };

    ghost view = { λ b. bytes_of b.held };
}

impl Buffer {
    /// Bytes that a caller gave.
    pub(crate) fn shared(bytes: Bytes) -> Buffer
        ensures { result ≡ bytes }
    {
        Buffer {
            held: Held::Shared(bytes),
        }
    }

    /// Bytes of this owner alone. Does not allocate.
    pub(crate) fn own(bytes: Vec<u8>) -> Buffer
        ensures { result ≡ bytes.items }
    {
        Buffer {
            held: Held::Own(BytesMut::from_vec(bytes)),
        }
    }

    /// The bytes.
    pub(crate) fn as_slice(&self) -> &[u8]
        ensures { result.now ≡ self.now }
    {
        match &self.held {
            Held::Shared(bytes) => bytes.as_slice(),
            Held::Own(bytes) => bytes.as_slice(),
        }
    }

    /// Writes the part number `n` of those of as many bytes as these. `false`, with nothing
    /// changed, if the bytes have other owners.
    pub(crate) fn put(&mut self, n: usize, bytes: &[u8]) -> bool
        requires { length bytes.now * n + length bytes.now ≤ length self.old }
        ensures long { length self.new ≡ length self.old }
        ensures here { OnTrue result (slice_range self.new (length bytes.now * n)
            (length bytes.now * n + length bytes.now) ≡ bytes.now) }
        ensures others { OnTrue result ((m : ℕ) → m ≢ n
            → slice_range self.new (length bytes.now * m)
            (length bytes.now * m + length bytes.now) ≡ slice_range self.old
            (length bytes.now * m) (length bytes.now * m + length bytes.now)) }
        ensures kept { OnFalse result (self.new ≡ self.old) }
    {
        match mem::replace(&mut self.held, Held::Shared(Bytes::new())) {
            Held::Own(mut own) => {
                put_part(own.as_mut_slice(), n, bytes);
                self.held = Held::Own(own);
                true
            }
            Held::Shared(shared) => match shared.try_into_mut() {
                Ok(mut own) => {
                    put_part(own.as_mut_slice(), n, bytes);
                    self.held = Held::Own(own);
                    true
                }
                Err(shared) => {
                    self.held = Held::Shared(shared);
                    false
                }
            },
        }
    }
}

/// Writes the part number `n` of those of as many bytes as these.
pub(crate) fn put_part(list: &mut [u8], n: usize, bytes: &[u8])
    requires { length bytes.now * n + length bytes.now ≤ length list.old }
    ensures long { length list.new ≡ length list.old }
    ensures here { slice_range list.new (length bytes.now * n)
        (length bytes.now * n + length bytes.now) ≡ bytes.now }
    ensures others { (m : ℕ) → m ≢ n
        → slice_range list.new (length bytes.now * m)
        (length bytes.now * m + length bytes.now) ≡ slice_range list.old
        (length bytes.now * m) (length bytes.now * m + length bytes.now) }
{
    let w = bytes.len();
    list[w * n..w * n + w].copy_from_slice(bytes);
}
