//! How a piece is made.
ghost use Rattle.std.specs.Prelude.{◌≡◌, ◌+◌, ◌/◌, ◌<◌, ◌≤◌, [], None, IfOk, OnErr};
ghost use Rattle.lrc_code.specs.Code.{data_count, fragment_count, Open};
ghost use Rattle.sealed.specs.Layout.{stripe_count};
ghost use Rattle.sealed.specs.Stripes.{fragment_at};
ghost use Rattle.sealed.specs.Sealed.{absent_in};
ghost use Rattle.lent.specs.Pieces.{IsPieceOf, bytes_in_piece};
ghost use Rattle.lent.specs.Stash.{IsStashOf};

use crate::building::built;
use crate::stash::Stash;
use crate::{Grant, Part, Piece};
use lrc_code::{NoMemory, Plans};
use sealed::Sealed;
use std::alloc::Global;

impl Piece<'_> {
    /// The bytes, whether lent or built.
    pub fn bytes(&self) -> &[u8]
        ensures { result.now ≡ bytes_in_piece self.now }
    {
        match self {
            Piece::Lent(bytes) => bytes,
            Piece::Built(bytes) => bytes.as_slice(),
        }
    }
}

/// An empty piece.
impl Default for Piece<'_> {
    ghost is_default = { λ piece. bytes_in_piece piece ≡ [] };

    fn default() -> Self {
        Piece::Lent(&[])
    }
}

/// The piece of a part of a fragment that is present or can be rebuilt. It allocates only for a
/// lost fragment that the stash does not have. `next` is the number in the blob of the data
/// fragment behind it. `NoMemory` if memory runs out.
pub(crate) fn piece_of<'a>(
    alloc: Global,
    grant: &'a Grant,
    part: Part,
    next: u64,
    stash: &mut Stash,
) -> Result<Piece<'a>, NoMemory>
    requires stripe { part.stripe < stripe_count grant.now.sealed.value.code
        grant.now.sealed.value.width grant.now.sealed.value.len }
    requires fragment { part.fragment < data_count grant.now.sealed.value.code }
    requires closed { Open grant.now.sealed.value.code
        (absent_in grant.now.sealed.value part.stripe) part.fragment → ⊥ }
    requires range { (part.from ≤ part.to) × (part.to ≤ grant.now.sealed.value.width) }
    requires next { grant.now.start / grant.now.sealed.value.width ≤ next }
    requires stash { IsStashOf grant.now.sealed.value stash.old }
    ensures ok { IfOk result (IsPieceOf grant.now.sealed.value part) }
    ensures err { OnErr result (fragment_at grant.now.sealed.value.stripes part.stripe part.fragment
        ≡ None) }
    ensures stash { IsStashOf grant.now.sealed.value stash.new }
{
    let sealed: &'a Sealed = &grant.sealed;
    match sealed.fragment(part.stripe, part.fragment) {
        Some(bytes) => Ok(Piece::Lent(&bytes[part.from..part.to])),
        None => match built(alloc, grant, part, next, stash) {
            Ok(bytes) => Ok(Piece::Built(bytes)),
            Err(error) => Err(error),
        },
    }
}

/// The piece of a part of a fragment that is present or can be rebuilt, which it rebuilds by a
/// recipe of `plans`. It allocates only for a lost fragment. It adds a new recipe to `plans` and
/// removes none. `NoMemory` if memory runs out.
pub(crate) fn piece_by<'a>(
    alloc: Global,
    sealed: &'a Sealed,
    part: Part,
    plans: &mut Plans,
) -> Result<Piece<'a>, NoMemory>
    requires stripe { part.stripe < stripe_count sealed.now.code sealed.now.width sealed.now.len }
    requires fragment { part.fragment < fragment_count sealed.now.code }
    requires closed { Open sealed.now.code (absent_in sealed.now part.stripe) part.fragment → ⊥ }
    requires range { (part.from ≤ part.to) × (part.to ≤ sealed.now.width) }
    ensures ok { IfOk result (IsPieceOf sealed.now part) }
    ensures err { OnErr result (fragment_at sealed.now.stripes part.stripe part.fragment ≡ None) }
    ensures more { plans.old ≤ plans.new }
    ensures one { plans.new ≤ plans.old + 1 }
{
    match sealed.fragment(part.stripe, part.fragment) {
        Some(bytes) => Ok(Piece::Lent(&bytes[part.from..part.to])),
        None => match sealed.rebuild_with(
            alloc,
            plans,
            part.stripe,
            part.fragment,
            part.from,
            part.to,
        ) {
            Ok(bytes) => Ok(Piece::Built(bytes)),
            Err(error) => Err(error),
        },
    }
}
