//! What each step on the table shows, and how views are split and joined.
use crate::view::{Lawful, View};
use atomic_table::{Join, Play, Split};
use std::marker::{Brand, PhantomData};

/// The setup of a ledger, and the acts that a step records. It exists in proofs alone. A caller
/// passes `Brand`, and its proof chooses both.
pub trait ActChoice<A> {
    ghost use Rattle.std.specs.Prelude.{List};
    ghost use Rattle.ledger.specs.declared.view.Setup.{Setup};

    ghost setup: { Setup };

    ghost acts: { List A };
}

impl<A> ActChoice<A> for Brand {
    ghost use Rattle.std.specs.Prelude.{[]};

    ghost setup = { record { count = 0; about = 0 } };

    ghost acts = { [] };
}

/// The list grows by acts of the shard that the seat keeps.
pub(crate) struct RecordStep<W> {
    marker: PhantomData<W>,
}

impl<A: Lawful, W: ActChoice<A>> Play<(), View<A>> for RecordStep<W> {
    ghost use Rattle.ledger.specs.Rule.{Recorded};

    ghost then = { Recorded (A.legal W.setup) W.acts };
}

/// A seat sees the list whole, with all acts of the shard that it keeps.
pub(crate) struct ObserveStep<W> {
    marker: PhantomData<W>,
}

impl<A: Lawful, W: ActChoice<A>> Play<(), View<A>> for ObserveStep<W> {
    ghost use Rattle.ledger.specs.Rule.{Observed};

    ghost then = { Observed (A.legal W.setup) };
}

/// A seat puts together what it heard and what it shows.
pub(crate) struct SettleStep;

impl<A> Play<(), View<A>> for SettleStep {
    ghost use Rattle.ledger.specs.Rule.{Settled};

    ghost then = { Settled };
}

/// A room goes to a new seat.
pub(crate) struct SplitStep;

impl<A> Split<View<A>> for SplitStep {
    ghost use Rattle.ledger.specs.Rule.{kept_part, given_part};

    ghost left = { kept_part };

    ghost right = { given_part };
}

/// What a view shows goes to a receipt, and stays.
pub(crate) struct ReceiptStep;

impl<A> Split<View<A>> for ReceiptStep {
    ghost use Rattle.ledger.specs.Rule.{same_part, noted_part};

    ghost left = { same_part };

    ghost right = { noted_part };
}

/// The first shard that a view keeps goes to a new seat.
pub(crate) struct KeeperStep;

impl<A> Split<View<A>> for KeeperStep {
    ghost use Rattle.ledger.specs.Rule.{less_one, one_keeper};

    ghost left = { less_one };

    ghost right = { one_keeper };
}

/// A seat hears what another one shows, and keeps what it kept.
pub(crate) struct JoinStep;

impl<A> Join<View<A>> for JoinStep {
    ghost use Rattle.ledger.specs.Rule.{heard_by, spent};

    ghost both = { heard_by };

    ghost spent = { spent };
}
