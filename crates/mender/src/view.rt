//! What the drawers of one `Tickets` know, the rule that they keep, and what each step shows them.
use atomic_table::{Join, Play, Split, TableRule};
use std::collections::LinkedList;

/// What a drawer knows: how many numbers it may still draw, and which it has drawn. It exists in
/// proofs alone.
pub struct DrawerView {
    pub allowance: u64,
    pub drawn: LinkedList<u64>,
}

/// The rule that the table keeps at every moment: the word is the count of all draws, and no two
/// drawers hold the same number.
pub struct TicketRule;

impl TableRule<(), DrawerView, ()> for TicketRule {
    ghost use Rattle.mender.specs.Rule.{Invariant, opening};

    ghost holds = { λ _. Invariant };

    ghost first = { λ _. opening };
}

/// A number is drawn.
pub(crate) struct DrawStep;

impl Play<(), DrawerView> for DrawStep {
    ghost use Rattle.mender.specs.Rule.{Drew};

    ghost then = { Drew };
}

/// Half of the allowance goes to a new drawer.
pub(crate) struct HalveStep;

impl Split<DrawerView> for HalveStep {
    ghost use Rattle.mender.specs.Rule.{kept_half, given_half};

    ghost left = { kept_half };

    ghost right = { given_half };
}

/// A drawer takes in what another one had.
pub(crate) struct JoinStep;

impl Join<DrawerView> for JoinStep {
    ghost use Rattle.mender.specs.Rule.{both, spent};

    ghost both = { both };

    ghost spent = { spent };
}

/// A drawer learns what the rule says of it.
pub(crate) struct LookStep;

impl Play<(), DrawerView> for LookStep {
    ghost use Rattle.mender.specs.Rule.{Looked};

    ghost then = { Looked };
}
