//! The order of the uses of a pool of sessions, as a law.
//!
//! A use begins as the pool lends a session, and ends as it is given back. Under the mutex of the
//! pool, one session, the root, learns of each session that is given back, and each session learns
//! of the root before it is lent.
#![tactic(auto)]

ghost use Rattle.std.specs.Prelude.{List, ◌∷◌, ◌++◌};
ghost use Rattle.shared.specs.Passes.{Shows};
ghost use Rattle.pool_order.specs.PoolTurn.{PoolTurn, give, take, AreTurns, HasSeenAllOf};

/// Of two uses of a pool, of which the first ended before the second began: whatever the first had
/// seen when it ended, its own calls among it, the second had seen when it began.
pub fn prove_pool_order()
    ensures order { (root last x y : Shows) (between after : List PoolTurn)
        → AreTurns root (give x ∷ between ++ take y ∷ after) last → HasSeenAllOf y x }
{}
