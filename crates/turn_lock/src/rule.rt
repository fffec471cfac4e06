//! The rule of the lock, and what each kind of atomic step makes known to the seat that takes it.
ghost use Rattle.std.specs.Prelude.{None};
ghost use Rattle.turn_lock.specs.Rule.{KeepsRule};
ghost use Rattle.turn_lock.specs.Steps.{Draws, Looks, Counts, PassesOn, Tells};
ghost use Rattle.turn_lock.specs.Steps.{maker, maker_after, fresh, note, joined};

use crate::counted::Counted;
use crate::seat_view::SeatView;
use atomic_table::{Join, Play, Split, TableRule};
use std::marker::PhantomData;

/// The rule that each step keeps.
pub struct TicketRule<V>(PhantomData<V>);

impl<V: Counted> TableRule<Option<V>, SeatView<V::Event, V::Operation>, u32> for TicketRule<V> {
    ghost holds = { λ _ s. KeepsRule V.history V.journal V.caller s };

    ghost first = { maker };
}

/// A handle is cut from the seat that makes them.
pub struct Cut<E, O>(PhantomData<(E, O)>);

impl<E, O> Split<SeatView<E, O>> for Cut<E, O> {
    ghost left = { maker_after };

    ghost right = { λ v. fresh v.made v.seats };
}

/// A ticket is drawn.
pub struct Draw<V>(PhantomData<V>);

impl<V: Counted> Play<Option<V>, SeatView<V::Event, V::Operation>> for Draw<V> {
    ghost then = { Draws };
}

/// The ticket that is being served is looked at, and the slot taken where it is the seat's own.
pub struct Look<V>(PhantomData<V>);

impl<V: Counted> Play<Option<V>, SeatView<V::Event, V::Operation>> for Look<V> {
    ghost then = { Looks V.history V.journal V.caller };
}

/// New events are added to the count.
pub struct Count<V>(PhantomData<V>);

impl<V: Counted> Play<Option<V>, SeatView<V::Event, V::Operation>> for Count<V> {
    ghost then = { Counts V.history V.journal V.caller };
}

/// The turn is passed on, and the slot given back.
pub struct PassOn<V>(PhantomData<V>);

impl<V: Counted> Play<Option<V>, SeatView<V::Event, V::Operation>> for PassOn<V> {
    ghost then = { PassesOn };
}

/// A note of what a seat has observed is cut from it.
pub struct Note<E, O>(PhantomData<(E, O)>);

impl<E, O> Split<SeatView<E, O>> for Note<E, O> {
    ghost left = { λ v. v };

    ghost right = { note };
}

/// A note is taken in, and spent.
pub struct Joined<E, O>(PhantomData<(E, O)>);

impl<E, O> Join<SeatView<E, O>> for Joined<E, O> {
    ghost both = { joined };

    ghost spent = { fresh None 0 };
}

/// The count is looked at once after a note was taken in.
pub struct Tell<V>(PhantomData<V>);

impl<V: Counted> Play<Option<V>, SeatView<V::Event, V::Operation>> for Tell<V> {
    ghost then = { Tells V.caller };
}
