//! The names of blobs.
ghost use Rattle.std.specs.Prelude.{◌≡◌, ◌↔◌, IsOk, IfOk, IfErr, nat_eq, refl, Some};
ghost use Rattle.std.specs.Ordering.{nat_cmp};
ghost use Rattle.std.specs.Cmp.Lexicographic.{pointwise, slice_cmp, nat_list_eq_equiv};
ghost use Rattle.std.specs.Cmp.Lexicographic.{nat_list_cmp_total, texts_ties, texts_po};
ghost use Rattle.std.specs.Cmp.{partial_equiv_from_equiv};
ghost use Rattle.history.specs.Names.{IsName, is_name_byte as is_plain};

use crate::Fault;
use arrayvec::ArrayString;
use std::cmp::Ordering;
use std::marker::Model;

/// The name of a blob: from 1 to 32 bytes, each one of `a-z`, `0-9`, `.`, `_` and `-`.
#[derive(Debug, Drop)]
pub struct Name {
    text: ArrayString<32>,
}

impl Model for Name {
    ghost use Rattle.std.specs.Prelude.{List, ℕ};
    ghost use Rattle.history.specs.Names.{IsName};

    ghost Value = { List ℕ };

    ghost view = { λ n. n.text.bytes };

    ghost invariant = { λ n. IsName n.text.bytes };
}

impl Name {
    /// The name with this text. `BadName` if the text is empty, is longer than 32 bytes, or has
    /// another byte.
    pub fn new(text: &str) -> Result<Name, Fault>
        ensures variant { IsOk result ↔ IsName text.now }
        ensures ok { IfOk result (λ n. n ≡ text.now) }
        ensures err { IfErr result (λ e. e ≡ Fault.BadName) }
    {
        let bytes = text.as_bytes();
        if bytes.is_empty() || !bytes.iter().all(|&c| is_name_byte(c)) {
            return Err(Fault::BadName);
        }
        match ArrayString::from(text) {
            Ok(text) => Ok(Name { text }),
            Err(_) => Err(Fault::BadName),
        }
    }

    /// A copy. Does not allocate.
    pub fn duplicate(&self) -> Name
        ensures { result ≡ self.now }
    {
        Name { text: self.text }
    }

    /// The text of the name.
    pub fn as_str(&self) -> &str
        ensures value { result.now ≡ self.now }
        ensures name { IsName self.now }
    {
        self.text.as_str()
    }
}

/// The bytes that a name may have, a bit for each: `-` and `.`, `0` to `9`, `_`, `a` to `z`.
const NAME_BYTES: [u32; 8] = [0, 0x03FF_6000, 0x8000_0000, 0x07FF_FFFE, 0, 0, 0, 0];

/// Whether a name may have this byte.
fn is_name_byte(c: u8) -> bool
    ensures { result ≡ is_plain c }
{
    NAME_BYTES[usize::from(c / 32)] >> (c % 32) & 1 == 1
}

impl PartialEq for Name {
    ghost eq = { pointwise nat_eq };

    ghost laws = { partial_equiv_from_equiv nat_list_eq_equiv };

    fn eq(&self, other: &Self) -> bool {
        self.as_str() == other.as_str()
    }
}

impl Eq for Name {
    ghost laws = { nat_list_eq_equiv };
}

impl PartialOrd for Name {
    ghost partial_cmp = { λ x y. Some (slice_cmp nat_cmp x y) };

    ghost laws = { texts_po };

    fn partial_cmp(&self, other: &Self) -> Option<Ordering> {
        Some(self.cmp(other))
    }
}

impl Ord for Name {
    ghost cmp = { slice_cmp nat_cmp };

    ghost total = { nat_list_cmp_total };

    ghost matches_partial_cmp = { λ x y. refl };

    ghost matches_eq = { texts_ties };

    fn cmp(&self, other: &Self) -> Ordering {
        self.as_str().cmp(other.as_str())
    }
}
