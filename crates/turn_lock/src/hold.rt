//! Critical sections.
ghost use Rattle.std.specs.Prelude.{◌≡◌};

use crate::counted::Counted;
use crate::lock::TurnLock;
use std::marker::Model;
use std::snapshot::Snapshot;

/// A critical section that was entered: the value is out of the lock, and nobody else has it. It
/// can't be dropped: it ends by `TurnLock::give` alone, and until then nobody enters another.
pub struct Hold<V: Counted> {
    pub(crate) lock: Snapshot<TurnLock<V>>,
    pub(crate) number: u32,
    pub(crate) found: u64,
    pub(crate) value: V,
}

impl<V: Counted> Model for Hold<V> {
    ghost use Rattle.turn_lock.specs.Handles.{Section};

    ghost Value = { Section V };

    ghost view = { λ h. record {
      lock = h.lock.value;
      number = h.number;
      found = h.found;
      value = h.value;
    } };
}

impl<V: Counted> Hold<V> {
    ghost use Rattle.std.specs.Borrow.{Lends, sem};
    ghost use Rattle.turn_lock.specs.contracts.hold.Hold.{the_row};

    /// Lends the value.
    pub fn value(&mut self) -> &mut V
        ensures* writes_back { sem 𝓛
            (Lends (the_row V.row V.Event.row V.Operation.row V.Counted) V.row self.entry result
            (λ w. record self.old { value = w })) }
        ensures value { result.now ≡ self.old.value }
    {
        &mut self.value
    }
}
