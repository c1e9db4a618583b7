//! What a sharded store is, whatever was called: one map.
ghost use Rattle.std.specs.Prelude.{◌≡◌, ◌↔◌, ℕ, ◌<◌, List};
ghost use Rattle.std.specs.FinMap as map;
ghost use Rattle.history.specs.History.{History, state_of};
ghost use Rattle.one_map.specs.Hash.{shard_of};
ghost use Rattle.one_map.specs.OneMap.{part, map_of, AreLegalParts, IsLegalOneMap};

/// The law of a sharded store, as clauses about every list of calls. It does nothing when it runs.
///
/// The calls are legal for one object over one map if and only if the calls of each shard, in their
/// order, are legal for a store. After them the map has at each name what the shard of the name has
/// there, and numbers the puts of each shard apart.
pub fn prove_one_map()
    ensures legal { (count w : ℕ) (h : History) → 0 < count
        → AreLegalParts count w h ↔ IsLegalOneMap count w h }
    ensures names { (count : ℕ) (h : History) (n : List ℕ) → map.get (map_of count h).names n
        ≡ map.get (state_of (part count (shard_of count n) h)).names n }
    ensures puts { (count : ℕ) (h : History) (k : ℕ) →
        (map_of count h).puts k ≡ (state_of (part count k h)).puts }
{}
