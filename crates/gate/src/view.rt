//! What the seats of a gate know, and the rule that they keep.
use atomic_table::TableRule;
use std::collections::LinkedList;
use std::snapshot::Snapshot;

/// Which value may be left after which: `follows` is a relation of two values, of which the second
/// may follow the first. It has no call.
pub trait Follows {
    ghost follows: { Self → Self → Type 0 };
}

/// The values that were left, as far as they were seen, and indices of this list. It exists in
/// proofs alone.
pub struct Shown<T> {
    pub list: LinkedList<T>,
    pub own: LinkedList<usize>,
}

/// What a seat knows. What a joined seat showed is `heard`, until a load has put it together with
/// `shown`. It exists in proofs alone.
pub struct View<T> {
    pub shown: Shown<T>,
    pub heard: Shown<T>,
    pub room: u64,
    pub inside: bool,
    /// A least length of the list of all values, once the thread that was found inside has left. It
    /// is 0 if none was found yet.
    pub expected_length: usize,
}

/// The rule that a gate's table keeps at every moment.
pub struct GateRule;

impl<T: Follows> TableRule<Option<T>, View<T>, Snapshot<T>> for GateRule {
    ghost use Rattle.gate.specs.Rule.{Invariant, opening};

    ghost holds = { λ _. Invariant T.follows };

    ghost first = { λ key. opening key.value };
}
