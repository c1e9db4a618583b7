//! Items of a plan.
ghost use Rattle.std.specs.Prelude.{◌≡◌, ◌↔◌, IsTrue};

use book::Item;

/// Whether two items are the same fragment of the same version of a blob.
pub(crate) fn are_same(one: &Item, other: &Item) -> bool
    ensures { IsTrue result ↔ (one.now ≡ other.now) }
{
    one.name == other.name
        && one.version == other.version
        && one.stripe == other.stripe
        && one.f == other.f
}
