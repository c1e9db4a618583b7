//! Fragments that a walk decodes before their turn.
ghost use Rattle.std.specs.Prelude.{◌≡◌, ◌<◌, ℕ, None, Some, IfSome, slice_index_or};
ghost use Rattle.sealed.specs.declared.value.Sealed.{Sealed as SealedBlob};
ghost use Rattle.lent.specs.Stash.{IsStashOf, IsWholeFragment};

/// Up to four fragments of a stripe that were decoded together, each until it is taken out.
#[derive(Drop)]
pub(crate) struct Stash {
    /// The stripe of the fragments.
    pub stripe: u64,
    /// The number of each fragment.
    pub chosen: [Option<u8>; 4],
    /// The bytes of each fragment.
    pub parts: [Option<Vec<u8>>; 4],
}

impl Stash {
    /// A stash of no fragments. Does not allocate.
    pub(crate) fn new() -> Stash
        ensures { (s : SealedBlob) → IsStashOf s result }
    {
        Stash {
            stripe: 0,
            chosen: [None; 4],
            parts: [None, None, None, None],
        }
    }

    /// Takes out the bytes of a fragment, if it has them.
    pub(crate) fn take(&mut self, stripe: u64, f: u8) -> Option<Vec<u8>>
        ensures unchanged { (s : SealedBlob) → IsStashOf s self.old → IsStashOf s self.new }
        ensures whole { (s : SealedBlob) → IsStashOf s self.old
            → IfSome result (λ bytes. IsWholeFragment s stripe f bytes.items) }
    {
        if self.stripe != stripe {
            return None;
        }
        match index_of(&self.chosen, f) {
            Some(i) => self.parts[i].take(),
            None => None,
        }
    }
}

/// The index of a fragment among those that are chosen.
fn index_of(chosen: &[Option<u8>; 4], f: u8) -> Option<usize>
    ensures { IfSome result (λ i. (i < 4) × (slice_index_or chosen.now i None ≡ Some f)) }
{
    for i in 0..4 {
        if chosen[i] == Some(f) {
            return Some(i);
        }
    }
    None
}
