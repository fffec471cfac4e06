//! Handles of a lock.
ghost use Rattle.std.specs.Prelude.{◌≡◌};

use crate::counted::Counted;
use crate::seat_view::SeatView;
use atomic_table::Seat;
use std::marker::Model;

/// A handle: a right to enter the lock's critical section, again and again, with a number that no
/// other handle of the lock has. It stands for one caller, and contracts see the history that it
/// has observed.
#[derive(Drop)]
pub struct Pass<V: Counted> {
    pub(crate) number: u32,
    pub(crate) seat: Seat<Option<V>, SeatView<V::Event, V::Operation>>,
}

impl<V: Counted> Model for Pass<V> {
    ghost use Rattle.std.specs.Prelude.{◌≡◌, Some, None, false};
    ghost use Rattle.turn_lock.specs.Handles.{Handle};
    ghost use Rattle.turn_lock.specs.Hands.{hand_of};

    ghost Value = { Handle V.Event V.Operation };

    ghost view = { λ p. record {
      lock = p.seat.table_id;
      number = p.number;
      seats = p.seat.me.0.seats;
      inside = p.seat.me.0.turn;
      history = p.seat.me.0.history;
      journal = p.seat.me.0.journal;
    } };

    ghost invariant = { λ p. (p.seat.me.0.number ≡ Some p.number)
        × (p.seat.me.1 ≡ hand_of p.seat.me.0.turn)
        × (p.seat.me.0.turn ≡ false → p.seat.me.0.ticket ≡ None) };
}

impl<V: Counted> Pass<V> {
    /// Its number, from 0, which stands as the caller in each event that is appended through it.
    pub fn number(&self) -> u32
        ensures { result ≡ self.now.number }
    {
        self.number
    }
}
