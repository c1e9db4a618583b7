//! Which set is meant, of those that the fragments are of.

ghost use Rattle.std.specs.Prelude.{◌≡◌, ◌⊎◌, IfOk, IfSome, IsSomeAnd, true};
ghost use Rattle.std.specs.List.{All};

use crate::failure::{Failure, usage};
use crate::layout::with_fragment;
use crate::scanning::{Found, Reason, Set, Stray};
use crate::source::Source;
use fragment_header::Header;
use std::alloc::Global;

/// A set that fragments are of.
#[derive(Clone, Copy, Drop)]
struct Candidate {
    key: [u8; 32],
    header: Header,
    count: usize,
    is_tied: bool,
}

/// How many fragments are of the set with this digest.
fn count_of(sources: &[Source], key: &[u8; 32]) -> usize {
    sources.iter().filter(|source| source.key == *key).count()
}

/// Of two sets the one with more fragments.
fn better(best: Option<Candidate>, header: &Header, key: &[u8; 32], count: usize) -> Candidate
    ensures { (result.header ≡ header.now)
        ⊎ IsSomeAnd best (λ old. result.header ≡ old.header) }
{
    let key = *key;
    let header = *header;
    let fresh = Candidate {
        key,
        header,
        count,
        is_tied: false,
    };
    match best {
        None => fresh,
        Some(old) => better_of(old, fresh),
    }
}

/// Of two sets the one with more fragments, or the first of two that have equally many.
fn better_of(old: Candidate, fresh: Candidate) -> Candidate
    ensures { (result.header ≡ fresh.header) ⊎ (result.header ≡ old.header) }
{
    if old.key == fresh.key || old.count > fresh.count {
        return old;
    }
    if old.count < fresh.count {
        return fresh;
    }
    let mut tied = old;
    tied.is_tied = true;
    tied
}

/// Whether a fragment is of a set with this identifier, if there is one.
fn is_asked(header: &Header, id: Option<[u8; 16]>) -> bool
    ensures { result ≡ true → IfSome id (λ i. header.now.set ≡ i) }
{
    match id {
        Some(id) => id == header.set,
        None => true,
    }
}

/// The best set so far, or that of a further fragment.
fn best_with(
    sources: &[Source],
    best: Option<Candidate>,
    source: &Source,
    id: Option<[u8; 16]>,
) -> Option<Candidate>
    ensures { IfSome id (λ i. IfSome best (λ old. old.header.set ≡ i)
        → IfSome result (λ new. new.header.set ≡ i)) }
{
    if !is_asked(&source.header, id) {
        return best;
    }
    let count = count_of(sources, &source.key);
    Some(better(best, &source.header, &source.key, count))
}

/// The set that most fragments are of: of all sets, or of those with this identifier.
fn most(sources: &[Source], id: Option<[u8; 16]>) -> Option<Candidate>
    ensures { IfSome id (λ i. IfSome result (λ best. best.header.set ≡ i)) }
{
    let mut best = None;
    for source in sources {
        best = best_with(sources, best, source, id);
    }
    best
}

/// The fragments of the set that is meant, and the other paths. The set is the one with this
/// identifier, or else the one that most fragments are of. None if there is no fragment of it. Of
/// two sets with equally many fragments none is chosen: that is a failure.
pub fn choose(
    alloc: Global,
    found: Found,
    id: Option<[u8; 16]>,
) -> Result<(Option<Set>, Vec<Stray>), Failure>
    ensures one_set { IfOk result (λ chosen. IfSome chosen.0
        (λ set. All (λ source. source.key ≡ set.key) set.sources.items)) }
    ensures asked { IfSome id (λ i. IfOk result (λ chosen. IfSome chosen.0
        (λ set. set.header.set ≡ i))) }
{
    let Found {
        sources,
        mut strays,
    } = found;
    let Some(best) = most(sources.as_slice(), id) else {
        return Ok((None, strays));
    };
    if best.is_tied {
        return Err(usage(format!(in alloc; "the fragments are of several sets: name one by --id")));
    }
    let key = best.key;
    let header = with_fragment(&best.header, 0);
    let mut set = Set {
        header,
        key,
        sources: Vec::new(alloc),
    };
    for source in sources {
        if source.key == best.key {
            set.sources.push(source)?;
        } else {
            strays.push(stray_of(source))?;
        }
    }
    Ok((Some(set), strays))
}

/// A fragment of another set, as a file that is not of the set.
fn stray_of(source: Source) -> Stray {
    let Source { path, header, .. } = source;
    let set = header.set;
    Stray {
        path,
        reason: Reason::OtherSet(set),
    }
}
