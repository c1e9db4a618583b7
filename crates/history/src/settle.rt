//! Moves the result of a replay, which has part of a base's names, into the base. Only `make_room`
//! can fail, and it then leaves the names unchanged.
ghost use Rattle.std.specs.Prelude.{◌≡◌, ◌&&◌, not, true, None, Some, cond, map, OnOk, OnErr, IfOk};
ghost use Rattle.std.specs.Prelude.{IsSome};
ghost use Rattle.std.specs.Option.{is_some, option_or};
ghost use Rattle.std.specs.BTreeMap.{get, IsOrdered};
ghost use Rattle.history.specs.Names.{name_cmp};
ghost use Rattle.history.specs.Parts.{has_name, is_changed};

use crate::{BlobMetadata, Entry, Name};
use lrc_code::Code;
use std::alloc::{AllocError, Global};
use std::collections::{BTreeMap, BTreeSet};

/// The names that the part has and the base lacks. `AllocError` if memory runs out.
fn absent(
    alloc: Global,
    names: &BTreeMap<Name, BlobMetadata>,
    part: &BTreeMap<Name, BlobMetadata>,
) -> Result<Vec<Name>, AllocError>
    ensures { IfOk result (λ fresh. (q : _) → has_name fresh.items q
        ≡ (is_some (get name_cmp part.now q) && not (is_some (get name_cmp names.now q)))) }
{
    let mut fresh = Vec::new(alloc);
    for (name, _) in part {
        if !names.contains_key(name) {
            fresh.push(name.duplicate())?;
        }
    }
    Ok(fresh)
}

/// Removes these names.
fn withdraw(names: &mut BTreeMap<Name, BlobMetadata>, gone: &[Name])
    ensures names { (q : _) → get name_cmp names.new q
        ≡ cond (has_name gone.now q) None (get name_cmp names.old q) }
    ensures ordered { IsOrdered name_cmp names.old → IsOrdered name_cmp names.new }
{
    for name in gone {
        names.remove(name);
    }
}

/// Adds each name that the part has and the base lacks. The other names keep their blobs.
///
/// `AllocError` if memory runs out; the names are then unchanged.
pub fn make_room(
    alloc: Global,
    names: &mut BTreeMap<Name, BlobMetadata>,
    part: &BTreeMap<Name, BlobMetadata>,
) -> Result<(), AllocError>
    requires { IsOrdered name_cmp names.old }
    ensures placed { OnOk result ((q : _) → IsSome (get name_cmp part.now q)
        → IsSome (get name_cmp names.new q)) }
    ensures others { OnOk result ((q : _) → get name_cmp part.now q ≡ None
        → get name_cmp names.new q ≡ get name_cmp names.old q) }
    ensures ordered { IsOrdered name_cmp names.new }
    ensures err { OnErr result (names.new.entries ≡ names.old.entries) }
{
    let fresh = absent(alloc, names, part)?;
    for name in &fresh {
        let place = BlobMetadata {
            version: 0,
            len: 0,
            code: Code::Wide,
            lost: BTreeSet::new(alloc),
        };
        let Ok(_) = names.insert(name.duplicate(), place) else {
            withdraw(names, &fresh);
            return Err(AllocError);
        };
    }
    Ok(())
}

/// Removes the names that the entries can change and that the part lacks.
pub fn take_out(
    names: &mut BTreeMap<Name, BlobMetadata>,
    part: &BTreeMap<Name, BlobMetadata>,
    entries: &[&Entry],
)
    ensures names { (q : _) → get name_cmp names.new q
        ≡ cond (is_changed (map (λ e. e.now) entries.now) q
        && not (is_some (get name_cmp part.now q))) None (get name_cmp names.old q) }
    ensures ordered { IsOrdered name_cmp names.old → IsOrdered name_cmp names.new }
{
    for entry in entries {
        let name = entry.call.name();
        if !entry.call.can_change() || part.contains_key(name) {
            continue;
        }
        names.remove(name);
    }
}

/// Gives each name of the part its blob there. The name is there already, so this does not
/// allocate.
pub fn fill(names: &mut BTreeMap<Name, BlobMetadata>, mut part: BTreeMap<Name, BlobMetadata>)
    requires { (q : _) → IsSome (get name_cmp part q) → IsSome (get name_cmp names.old q) }
    ensures names { (q : _) → get name_cmp names.new q
        ≡ option_or (get name_cmp part q) (get name_cmp names.old q) }
    ensures ordered { IsOrdered name_cmp names.old → IsOrdered name_cmp names.new }
{
    while let Some((name, kept)) = part.pop_first() {
        let Ok(_) = names.insert(name, kept) else {
            unreachable!()
        };
    }
}
