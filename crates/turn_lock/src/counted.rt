//! What a value tells the lock that it lies in.
ghost use Rattle.std.specs.Prelude.{◌≡◌, ℕ, List, length};

/// A value with a history of events and a journal of operations, of which it tells how many events
/// there are.
pub trait Counted {
    /// An event as contracts see it. No value of it is made.
    type Event;

    /// An operation as contracts see it. No value of it is made.
    type Operation;

    ghost history: { Self → List Self.Event };

    ghost journal: { Self → List Self.Operation };

    /// The number of the handle through which an event was appended.
    ghost caller: { Self.Event → ℕ };

    /// How many events the history has.
    fn count(&self) -> u64
        ensures { result ≡ length (history self.now) };
}
