//! Which records of a stripe to read for the fragments that are wanted, and no more of them.

ghost use Rattle.std.specs.Prelude.{◌≡◌, ◌<◌, ◌⊎◌, ◌↔◌, ℕ, IfSome, None, true, false, length};
ghost use Rattle.std.specs.List.{All};
ghost use Rattle.lrc_code.specs.Code.{fragment_count, is_lost, Open};
ghost use Rattle.lrc_code.specs.Stripe.{is_absent, Reaches};
ghost use Rattle.fragment_files.specs.Needed.{is_marked, IsWantedLost, HasTerm, HasRecipe};
ghost use Rattle.fragment_files.specs.Needed.{HelpsWith, IsNeededFor};

use crate::lane::Lane;
use crate::scanning::Set;
use fragment_header::Header;
use lrc_code::{Code, Left, LostSet, Term, recipe_in};

/// Marks the fragments that a lost one is made of. Returns false if it is unrecoverable.
fn add_terms(code: Code, lost: LostSet, f: u8, needed: &mut [bool; 16]) -> bool
    requires below { f < fragment_count code }
    requires is_gone { is_lost lost f ≡ true }
    ensures lost { (result ≡ false) ↔ Open code (is_lost lost) f }
    ensures before { (i : ℕ) → is_marked needed.old i ≡ true → is_marked needed.new i ≡ true }
    ensures recipe { result ≡ true → HasRecipe code (is_lost lost) f needed.new }
    ensures added { (i : ℕ) → is_marked needed.new i ≡ true
        → (is_marked needed.old i ≡ true) ⊎ HelpsWith code (is_lost lost) f i }
{
    let Some(recipe) = recipe_in(code, lost, f) else {
        return false;
    };
    mark_all(recipe.as_slice(), needed);
    true
}

/// Marks the fragments of these terms.
fn mark_all(terms: &[Term], needed: &mut [bool; 16])
    requires { All (λ term. term.fragment < 16) terms.now }
    ensures before { (i : ℕ) → is_marked needed.old i ≡ true → is_marked needed.new i ≡ true }
    ensures all { All (λ term. is_marked needed.new term.fragment ≡ true) terms.now }
    ensures added { (i : ℕ) → is_marked needed.new i ≡ true
        → (is_marked needed.old i ≡ true) ⊎ HasTerm terms.now i }
{
    for term in terms {
        needed[usize::from(term.fragment)] = true;
    }
}

/// Marks what a fragment needs, if it is wanted: itself, or if it is lost what it is made of.
/// Returns false if it is unrecoverable.
fn add_needed(code: Code, lost: LostSet, f: u8, is_wanted: bool, needed: &mut [bool; 16]) -> bool
    requires { f < fragment_count code }
    ensures lost { (result ≡ false) ↔ ((is_wanted ≡ true) × (is_lost lost f ≡ true)
        × Open code (is_lost lost) f) }
    ensures before { (i : ℕ) → is_marked needed.old i ≡ true → is_marked needed.new i ≡ true }
    ensures remaining { is_wanted ≡ true → is_lost lost f ≡ false → is_marked needed.new f ≡ true }
    ensures recipe { result ≡ true → is_wanted ≡ true → is_lost lost f ≡ true
        → HasRecipe code (is_lost lost) f needed.new }
    ensures added { (i : ℕ) → is_marked needed.new i ≡ true → (is_marked needed.old i ≡ true)
        ⊎ ((is_wanted ≡ true) × IsNeededFor code (is_lost lost) f i) }
{
    if !is_wanted {
        return true;
    }
    if lost.left(f) {
        needed[usize::from(f)] = true;
        return true;
    }
    add_terms(code, lost, f, needed)
}

/// Which fragments to read for those that are wanted, or None if one of them is unrecoverable. A
/// fragment that is alone lost in its group needs the others of the group, and no more.
pub fn needed_for(code: Code, lost: LostSet, wanted: &[bool; 16]) -> Option<[bool; 16]>
    ensures lost { (result ≡ None) ↔ ((f : ℕ) × IsWantedLost code (is_lost lost) wanted.now f
        × Open code (is_lost lost) f) }
    ensures remaining { IfSome result (λ needed. (i : ℕ) → i < fragment_count code
        → is_marked wanted.now i ≡ true → is_lost lost i ≡ false → is_marked needed i ≡ true) }
    ensures recipes { IfSome result (λ needed. (f : ℕ)
        → IsWantedLost code (is_lost lost) wanted.now f
        → HasRecipe code (is_lost lost) f needed) }
    ensures no_more { IfSome result (λ needed. (i : ℕ) → is_marked needed i ≡ true
        → (f : ℕ) × (f < fragment_count code) × (is_marked wanted.now f ≡ true)
        × IsNeededFor code (is_lost lost) f i) }
{
    let mut needed = [false; 16];
    for f in 0..code.fragments() {
        if !add_needed(code, lost, f, wanted[usize::from(f)], &mut needed) {
            return None;
        }
    }
    Some(needed)
}

/// The fragments whose record j was looked for, and is missing or damaged.
pub fn lost_of(lanes: &[Lane], j: usize) -> LostSet {
    let mut lost = LostSet::empty();
    for lane in lanes {
        if lane.fragment < 16 && lane.is_lost(j) {
            lost = lost.with(lane.fragment);
        }
    }
    lost
}

/// The first lane that is needed and whose record j was not looked for.
fn first_unread<'a>(lanes: &'a mut [Lane], needed: &[bool; 16], j: usize) -> Option<&'a mut Lane> {
    let at = unread_at(lanes, needed, j)?;
    lanes.get_mut(at)
}

/// Where the first lane stands that is needed and whose record j was not looked for.
fn unread_at(lanes: &[Lane], needed: &[bool; 16], j: usize) -> Option<usize> {
    lanes.iter().position(|lane| {
        lane.fragment < 16 && needed[usize::from(lane.fragment)] && !lane.is_tried(j)
    })
}

/// Reads of record j what the wanted fragments need: their own records, and for each that is lost
/// those of its recipe. A record that is not whole counts as lost, and then others are read.
/// Returns false if a wanted fragment is unrecoverable.
pub fn gather(set: &Set, first: u64, j: usize, wanted: &[bool; 16], lanes: &mut [Lane]) -> bool {
    for _ in 0..17 {
        let lost = lost_of(lanes, j);
        let Some(needed) = needed_for(set.header.code, lost, wanted) else {
            return false;
        };
        match first_unread(lanes, &needed, j) {
            Some(lane) => lane.read(set, first, j),
            None => return true,
        }
    }
    false
}

/// The block of a fragment's record j, if it was read and is whole.
fn block_of(lanes: &[Lane], f: usize, width: usize, j: usize) -> Option<&[u8]>
    ensures { IfSome result (λ block. length block.now ≡ width) }
{
    lanes.get(f)?.block(width, j)
}

/// The blocks of a stripe that were read and are whole. Lane i is of fragment i.
pub fn left_of<'a>(header: &Header, lanes: &'a [Lane], j: usize) -> Left<'a>
    ensures code { result.code ≡ header.now.code }
    ensures reach { (i : ℕ) → i < 16 → is_absent result.fragments i ≡ false
        → Reaches result.fragments header.now.width i }
{
    let mut fragments: [Option<&'a [u8]>; 16] = [None; 16];
    for i in 0..16usize {
        fragments[i] = block_of(lanes, i, header.width as usize, j);
    }
    Left {
        code: header.code,
        fragments,
    }
}
