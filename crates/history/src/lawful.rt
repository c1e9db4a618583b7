//! Whether entries are those of a legal history.
ghost use Rattle.std.specs.Prelude.{◌↔◌, IsTrue, IfOk};
ghost use Rattle.history.specs.Lawful.{IsLawful, IsLawfulFrom};

use crate::replay::Replay;
use crate::{Base, Entry};
use sealed::Width;
use std::alloc::{AllocError, Global};

/// Whether the entries are those of some legal history of a book of this width. They are if and
/// only if each note is the reply of the sequential specification, from the empty state on. No
/// reply depends on bytes, so their lengths suffice.
///
/// `AllocError` if memory for the state runs out.
pub fn is_lawful(alloc: Global, entries: &[Entry], width: Width) -> Result<bool, AllocError>
    ensures { IfOk result (λ lawful. IsTrue lawful ↔ IsLawful width entries.now) }
{
    is_lawful_from(alloc, &Base::empty(alloc), entries, width)
}

/// Whether the entries are those of calls that are legal on a book of this width, from some state
/// that the base outlines. No reply depends on bytes, so the outline suffices. With an empty base
/// this is `is_lawful`.
///
/// `AllocError` if memory for the state runs out.
pub fn is_lawful_from(
    alloc: Global,
    base: &Base,
    entries: &[Entry],
    width: Width,
) -> Result<bool, AllocError>
    ensures { IfOk result (λ lawful. IsTrue lawful ↔ IsLawfulFrom base.now width entries.now) }
{
    Replay::from_base(alloc, base, width)?.follow(alloc, entries)
}
