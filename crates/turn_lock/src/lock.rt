//! The lock.
ghost use Rattle.std.specs.Prelude.{◌≡◌, ◌≤◌, [], true, false, IfOk, vec_capacity};
ghost use Rattle.turn_lock.specs.Handles.{Finds, Leaves, Met, Entered, new_handles};
ghost use Rattle.turn_lock.specs.Rule.{KeepsBoth};
ghost use Rattle.turn_lock.specs.Steps.{joined};
ghost use Rattle.turn_lock.specs.declared.limits.TheConstants.{MOST_SEATS};

use crate::counted::Counted;
use crate::hold::Hold;
use crate::pass::Pass;
use crate::ticket_lock::{LockSeat, TicketLock};
use std::alloc::{AllocError, Global};
use std::marker::Model;
use std::snapshot::Snapshot;
use std::sync::Wait;

/// A ticket lock: one value, which one critical section at a time has, in the order of tickets.
#[derive(Drop)]
pub struct TurnLock<V: Counted> {
    steps: TicketLock<V>,
}

impl<V: Counted> Model for TurnLock<V> {
    ghost use Rattle.turn_lock.specs.Handles.{LockId};

    ghost Value = { LockId };

    ghost view = { λ l. l.steps.table.shared.table_id };
}

impl<V: Counted + Drop> TurnLock<V> {
    /// A lock round the value, and as many handles as seats, in the order of their numbers. Where
    /// there is no memory the value is dropped.
    pub fn new(
        alloc: Global,
        value: V,
        seats: u32,
    ) -> Result<(TurnLock<V>, Vec<Pass<V>>), AllocError>
        requires seats { (1 ≤ seats) × (seats ≤ MOST_SEATS) }
        requires empty { (V.history value ≡ []) × (V.journal value ≡ []) }
        ensures ok { IfOk result (λ made. made.1.items ≡ new_handles made.0 seats) }
    {
        let passes = Vec::with_capacity(alloc, seats as usize)?;
        let (steps, maker) = TicketLock::new(alloc, value, seats)?;
        let lock = TurnLock { steps };
        let passes = lock.make_passes(maker, passes, seats);
        Ok((lock, passes))
    }
}

impl<V: Counted> TurnLock<V> {
    /// Enters the critical section: waits for the handle's turn, in the order in which tickets were
    /// drawn, and takes the value out. It looks again and again, and lets other threads run in
    /// between.
    pub fn take(&self, wait: &impl Wait, pass: &mut Pass<V>) -> Hold<V>
        requires handle { pass.old.lock ≡ self.now }
        requires outside { pass.old.inside ≡ false }
        ensures found { Finds V.caller pass.old (V.history result.value) (V.journal result.value) }
        ensures handle { pass.new ≡ record pass.old {
          inside = true;
          history = V.history result.value;
          journal = V.journal result.value;
        } }
        ensures entered { Entered pass.new result }
    {
        let ticket = self.steps.draw(&mut pass.seat);
        self.steps.wait_turn(wait, &mut pass.seat, ticket);
        let value = self.steps.take_out(&mut pass.seat);
        let found = value.count();
        Hold {
            lock: Snapshot::of(self),
            number: pass.number,
            found,
            value,
        }
    }

    /// Leaves the critical section: the value goes back with what was appended, and the next handle
    /// gets its turn.
    pub fn give(&self, pass: &mut Pass<V>, hold: Hold<V>)
        requires handle { pass.old.lock ≡ self.now }
        requires inside { pass.old.inside ≡ true }
        requires entered { Entered pass.old hold }
        requires leaves { Leaves V.caller pass.old (V.history hold.value) (V.journal hold.value) }
        ensures handle { pass.new ≡ record pass.old {
          inside = false;
          history = V.history hold.value;
          journal = V.journal hold.value;
        } }
    {
        let Hold {
            lock: _,
            number: _,
            found,
            value,
        } = hold;
        let new_events = value.count() - found;
        // The next handle may enter once the turn is passed on. So the value is in by then, and its
        // events are counted.
        self.steps.put_in(&mut pass.seat, value);
        self.steps.count_in(&mut pass.seat, new_events);
        self.steps.pass_on(&mut pass.seat);
    }

    /// Lets `to` observe all that `from` has. It waits for nobody, and takes no turn: what is being
    /// appended meanwhile isn't observed by it. It is for a `to` that is outside: `give` asks for
    /// the history that its critical section found, which a meeting may make longer.
    pub fn meet(&self, from: &mut Pass<V>, to: &mut Pass<V>)
        requires handles { (from.old.lock ≡ self.now) × (to.old.lock ≡ self.now) }
        ensures from { from.new ≡ from.old }
        ensures handle { to.new ≡ record to.old {
          history = to.new.history;
          journal = to.new.journal;
        } }
        ensures met { Met V.caller from.old to.old to.new.history to.new.journal }
    {
        self.join_seats(&mut from.seat, &mut to.seat);
    }

    /// As many handles as seats. The maker's seat isn't kept: no more handles are made.
    fn make_passes(
        &self,
        mut maker: LockSeat<V>,
        mut passes: Vec<Pass<V>>,
        seats: u32,
    ) -> Vec<Pass<V>>
        requires handle { maker.table_id ≡ self.now }
        requires made { (maker.me.0.made ≡ Some 0) × (maker.me.0.seats ≡ seats) }
        requires few { seats ≤ MOST_SEATS }
        requires room { (passes.items ≡ []) × (seats ≤ vec_capacity passes) }
        ensures made { result.items ≡ new_handles self.now seats }
    {
        for number in 0..seats {
            let seat = self.steps.cut(&mut maker);
            passes.push_reserved(Pass { number, seat });
        }
        passes
    }

    /// A note goes from one seat to the other.
    fn join_seats(&self, from: &mut LockSeat<V>, to: &mut LockSeat<V>)
        requires handles { (from.old.table_id ≡ self.now) × (to.old.table_id ≡ self.now) }
        ensures from { (from.new.table_id ≡ from.old.table_id) × (from.new.id ≡ from.old.id)
            × (from.new.me ≡ from.old.me) }
        ensures to { (to.new.table_id ≡ to.old.table_id) × (to.new.id ≡ to.old.id)
            × (to.new.me ≡ (joined to.old.me.0 from.old.me.0, to.old.me.1)) }
        ensures kept { KeepsBoth V.caller to.new.me.0 }
    {
        let note = self.steps.note(from);
        self.steps.join(to, note);
        self.steps.tell(to);
    }
}

fn shared<T: Sync>(_value: &T) {}

fn sent<T: Send + Drop>(_value: T) {}

// A lock may be shared by threads, and sent to one, where its value may be sent.
fn may_be_shared<V: Counted + Send>(lock: &TurnLock<V>) {
    shared(lock);
}

fn may_be_sent<V: Counted + Send + Drop>(lock: TurnLock<V>, pass: Pass<V>) {
    sent(lock);
    sent(pass);
}
