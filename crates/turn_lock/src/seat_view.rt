//! What a seat knows.
use std::collections::LinkedList;

/// What a seat at the lock's table knows: the number of its handle; for the seat that makes the
/// handles, how many it has made; how many there are in all; its ticket, and whether it has the
/// turn; the history and the journal that it has observed; and those that it and another had
/// observed before they last met. No value of it is made.
pub struct SeatView<E, O> {
    pub number: Option<u32>,
    pub made: Option<u32>,
    pub seats: u32,
    pub ticket: Option<u64>,
    pub turn: bool,
    pub history: LinkedList<E>,
    pub journal: LinkedList<O>,
    pub old_history: LinkedList<E>,
    pub old_journal: LinkedList<O>,
    pub met_history: LinkedList<E>,
    pub met_journal: LinkedList<O>,
}
