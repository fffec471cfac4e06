//! The atomic steps of the lock. Each is a function of its own, and says what it makes known, to
//! whom, and why it doesn't change places with its neighbour.
ghost use Rattle.std.specs.Prelude.{◌≡◌, ◌<◌, ◌+◌, ◌^◌, ℕ, List, [], ◌∷◌, length, Some, None};
ghost use Rattle.std.specs.Prelude.{false, true, is_some, IfOk};
ghost use Rattle.std.specs.Bool.{MatchBool};
ghost use Rattle.turn_lock.specs.Rule.{KeepsBoth};
ghost use Rattle.turn_lock.specs.Steps.{Follows, Adds, learned, fresh, maker, maker_after};
ghost use Rattle.turn_lock.specs.Steps.{note, joined};

use crate::counted::Counted;
use crate::rule::{Count, Cut, Draw, Joined, Look, Note, PassOn, Tell, TicketRule};
use crate::seat_view::SeatView;
use atomic_table::{Seat, Table};
use std::alloc::{AllocError, Global};
use std::sync::Wait;
use std::thread;

/// A seat at the lock's table: a handle's, the one that makes them, or a note.
pub type LockSeat<V> = Seat<Option<V>, SeatView<<V as Counted>::Event, <V as Counted>::Operation>>;

/// The ticket that is drawn next.
const NEXT: usize = 0;

/// The ticket that is being served.
const SERVING: usize = 1;

/// The length of the longest history that any handle has observed.
const COUNT: usize = 2;

/// Where the value is while nobody has the turn.
const VALUE: usize = 0;

/// Three words and one slot.
#[derive(Drop)]
pub struct TicketLock<V: Counted> {
    pub(crate) table: Table<
        Option<V>,
        SeatView<V::Event, V::Operation>,
        u32,
        TicketRule<V>,
        Global,
    >,
    ghost shape: { (table.shared.table_id.words ≡ 3) × (table.shared.table_id.slots ≡ 1) },
}

impl<V: Counted + Drop> TicketLock<V> {
    /// A table with the value at home, nothing drawn, nothing served and nothing counted, and the
    /// seat that makes the handles.
    pub fn new(
        alloc: Global,
        value: V,
        seats: u32,
    ) -> Result<(TicketLock<V>, LockSeat<V>), AllocError>
        requires empty { (V.history value ≡ []) × (V.journal value ≡ []) }
        ensures maker { IfOk result (λ made.
            (made.1.table_id ≡ made.0.table.shared.table_id) × (made.1.me ≡ (maker seats, []))) }
    {
        let mut slots = Vec::with_capacity(alloc, 1)?;
        slots.push_reserved(Some(value));
        match Table::new(alloc, &[0, 0, 0], slots, &seats) {
            Ok((table, maker)) => Ok((TicketLock { table }, maker)),
            Err(_) => Err(AllocError),
        }
    }
}

impl<V: Counted> TicketLock<V> {
    /// Makes a handle. The maker knows that there is one more, and the new seat its number. Both
    /// learn in one step: between two steps a number would be given that isn't counted, or counted
    /// and not given, and the rule says that each number below the count was given once.
    pub fn cut(&self, maker: &mut LockSeat<V>) -> LockSeat<V>
        requires same { maker.old.table_id ≡ self.now.table.shared.table_id }
        requires made { (m : ℕ) × (maker.old.me.0.made ≡ Some m) × (m < maker.old.me.0.seats)
            × (m < 17) }
        ensures maker { (maker.new.table_id ≡ maker.old.table_id)
            × (maker.new.me.0 ≡ maker_after maker.old.me.0) }
        ensures seat { (result.table_id ≡ maker.old.table_id)
            × (result.me ≡ (fresh maker.old.me.0.made maker.old.me.0.seats, [])) }
    {
        self.table
            .shared
            .split_seat::<Cut<V::Event, V::Operation>>(maker)
    }

    /// Draws a ticket, which the seat alone knows. Adding and reading are one step: were the next
    /// ticket read first and written later, two seats could draw the same, and both would have the
    /// turn. It comes before the look, which has nothing to compare without a ticket.
    pub fn draw(&self, seat: &mut LockSeat<V>) -> u64
        requires same { seat.old.table_id ≡ self.now.table.shared.table_id }
        requires free { seat.old.me.0.ticket ≡ None }
        requires handle { is_some seat.old.me.0.number ≡ true }
        ensures same { (seat.new.table_id ≡ seat.old.table_id) × (seat.new.id ≡ seat.old.id) }
        ensures hand { seat.new.me.1 ≡ seat.old.me.1 }
        ensures drawn { seat.new.me.0 ≡ record seat.old.me.0 { ticket = Some result } }
    {
        self.table.shared.fetch_add::<Draw<V>>(seat, NEXT, 1)
    }

    /// Looks whether the seat's ticket is being served. If so, the seat learns that it has the
    /// turn, that the value is at home, and the whole record: with the same step it has the slot.
    /// Were the slot taken before the look, it might be another's.
    fn look(&self, seat: &mut LockSeat<V>, ticket: u64) -> bool
        requires same { seat.old.table_id ≡ self.now.table.shared.table_id }
        requires ticket { seat.old.me.0.ticket ≡ Some ticket }
        requires turn { seat.old.me.0.turn ≡ false }
        requires hand { seat.old.me.1 ≡ [] }
        ensures same { (seat.new.table_id ≡ seat.old.table_id) × (seat.new.id ≡ seat.old.id) }
        ensures looked { MatchBool result
            ((y : V) × (seat.new.me.1 ≡ (0, Some y) ∷ [])
            × (seat.new.me.0
            ≡ record (learned V.history V.journal V.caller seat.old.me.0 y) { turn = true })
            × Follows V.history V.journal V.caller seat.old.me.0 y)
            (seat.new.me ≡ seat.old.me) }
    {
        let serving = self.table.shared.load::<Look<V>>(seat, SERVING);
        ticket == serving
    }

    /// Looks until it is the seat's turn. Others run in between.
    pub fn wait_turn(&self, wait: &impl Wait, seat: &mut LockSeat<V>, ticket: u64)
        requires same { seat.old.table_id ≡ self.now.table.shared.table_id }
        requires ticket { seat.old.me.0.ticket ≡ Some ticket }
        requires turn { seat.old.me.0.turn ≡ false }
        requires hand { seat.old.me.1 ≡ [] }
        ensures same { (seat.new.table_id ≡ seat.old.table_id) × (seat.new.id ≡ seat.old.id) }
        ensures taken { (y : V) × (seat.new.me.1 ≡ (0, Some y) ∷ [])
            × (seat.new.me.0
            ≡ record (learned V.history V.journal V.caller seat.old.me.0 y) { turn = true })
            × Follows V.history V.journal V.caller seat.old.me.0 y }
    {
        for _round in wait.forever() {
            if self.look(seat, ticket) {
                return;
            }
            thread::yield_now();
        }
        unreachable!()
    }

    /// Takes the value out of the slot, which the seat has: nobody else learns anything by it. It
    /// comes after the look, since before it the slot isn't the seat's to read.
    pub fn take_out(&self, seat: &mut LockSeat<V>) -> V
        requires same { seat.old.table_id ≡ self.now.table.shared.table_id }
        requires hand { (y : V) × (seat.old.me.1 ≡ (0, Some y) ∷ []) }
        ensures same { (seat.new.table_id ≡ seat.old.table_id) × (seat.new.id ≡ seat.old.id)
            × (seat.new.me ≡ (seat.old.me.0, (0, None) ∷ [])) }
        ensures value { seat.old.me.1 ≡ (0, Some result) ∷ [] }
    {
        self.table.shared.exchange(seat, VALUE, None).unwrap()
    }

    /// Puts the value into the slot, which the seat has: nobody else learns anything by it. It
    /// comes before the count, since the count's step tells a record only of a value that lies
    /// there; who holds the turn could change the two unseen. It comes before the turn is passed
    /// on, since from then on the next seat takes what lies there.
    pub fn put_in(&self, seat: &mut LockSeat<V>, value: V)
        requires same { seat.old.table_id ≡ self.now.table.shared.table_id }
        requires hand { seat.old.me.1 ≡ (0, None) ∷ [] }
        ensures same { (seat.new.table_id ≡ seat.old.table_id) × (seat.new.id ≡ seat.old.id)
            × (seat.new.me ≡ (seat.old.me.0, (0, Some value) ∷ [])) }
    {
        let before = self.table.shared.exchange(seat, VALUE, Some(value));
        let None = before else { unreachable!() };
    }

    /// Counts the new events: with this step they join the one history, and the seat has observed
    /// them. Were it left for after the turn is passed on, the next seat would take a value with
    /// events that the history doesn't have, and two seats might count at once.
    pub fn count_in(&self, seat: &mut LockSeat<V>, new_events: u64)
        requires same { seat.old.table_id ≡ self.now.table.shared.table_id }
        requires turn { seat.old.me.0.turn ≡ true }
        requires hand { (y : V) × (seat.old.me.1 ≡ (0, Some y) ∷ [])
            × Adds V.history V.journal V.caller seat.old.me.0 y
            × (length (V.history y) ≡ length seat.old.me.0.history + new_events)
            × (length (V.history y) < 2 ^ 64) }
        ensures same { (seat.new.table_id ≡ seat.old.table_id) × (seat.new.id ≡ seat.old.id) }
        ensures hand { seat.new.me.1 ≡ seat.old.me.1 }
        ensures counted { (y : V) → seat.old.me.1 ≡ (0, Some y) ∷ []
            → seat.new.me.0 ≡ learned V.history V.journal V.caller seat.old.me.0 y }
    {
        self.table
            .shared
            .fetch_add::<Count<V>>(seat, COUNT, new_events);
    }

    /// Passes the turn on: whoever has the next ticket may learn that it is being served, and with
    /// the same step the slot is at home for it. So it is the last step; what came after it would
    /// run beside the next critical section.
    pub fn pass_on(&self, seat: &mut LockSeat<V>)
        requires same { seat.old.table_id ≡ self.now.table.shared.table_id }
        requires turn { seat.old.me.0.turn ≡ true }
        requires hand { (y : V) × (seat.old.me.1 ≡ (0, Some y) ∷ [])
            × (V.history y ≡ seat.old.me.0.history) × (V.journal y ≡ seat.old.me.0.journal) }
        ensures same { (seat.new.table_id ≡ seat.old.table_id) × (seat.new.id ≡ seat.old.id) }
        ensures passed { (seat.new.me.0 ≡ record seat.old.me.0 { ticket = None; turn = false })
            × (seat.new.me.1 ≡ []) }
    {
        self.table.shared.fetch_add::<PassOn<V>>(seat, SERVING, 1);
    }

    /// Makes a note of what a seat has observed: a seat of its own, which no handle has. The seat
    /// stays as it is. The note is made first, since `join` spends it.
    pub fn note(&self, seat: &mut LockSeat<V>) -> LockSeat<V>
        requires same { seat.old.table_id ≡ self.now.table.shared.table_id }
        ensures same { (seat.new.table_id ≡ seat.old.table_id) × (seat.new.id ≡ seat.old.id)
            × (seat.new.me ≡ seat.old.me) }
        ensures note { (result.table_id ≡ seat.old.table_id)
            × (result.me ≡ (note seat.old.me.0, [])) }
    {
        self.table
            .shared
            .split_seat::<Note<V::Event, V::Operation>>(seat)
    }

    /// Takes a note in: the seat has observed the longer of the two records, and knows of both that
    /// it had them. The note is spent. Nobody else learns of it. After `tell` it would leave the
    /// seat without the fact that the longer record continues both.
    pub fn join(&self, seat: &mut LockSeat<V>, note: LockSeat<V>)
        requires same { (seat.old.table_id ≡ self.now.table.shared.table_id)
            × (note.table_id ≡ self.now.table.shared.table_id) }
        requires empty { note.me.1 ≡ [] }
        requires note { (note.me.0.number ≡ None) × (note.me.0.made ≡ None)
            × (note.me.0.ticket ≡ None) × (note.me.0.turn ≡ false) }
        ensures same { (seat.new.table_id ≡ seat.old.table_id) × (seat.new.id ≡ seat.old.id)
            × (seat.new.me ≡ (joined seat.old.me.0 note.me.0, seat.old.me.1)) }
    {
        self.table
            .shared
            .join_seat::<Joined<V::Event, V::Operation>>(seat, note);
    }

    /// Looks at the count once, which changes nothing. The step reads the rule, and so the seat
    /// learns that the record which it has observed since it took a note in continues both. It
    /// comes after the note was taken in, since before it there is nothing to learn.
    pub fn tell(&self, seat: &mut LockSeat<V>)
        requires same { seat.old.table_id ≡ self.now.table.shared.table_id }
        ensures same { (seat.new.table_id ≡ seat.old.table_id) × (seat.new.id ≡ seat.old.id)
            × (seat.new.me ≡ seat.old.me) }
        ensures kept { KeepsBoth V.caller seat.old.me.0 }
    {
        self.table.shared.load::<Tell<V>>(seat, COUNT);
    }
}
