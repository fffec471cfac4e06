//! The bounded queue.
ghost use Rattle.std.specs.Prelude.{◌≡◌, ◌<◌, ◌≤◌, ◌+◌, ◌++◌, ℕ, List, [], ◌∷◌, length, insert};
ghost use Rattle.std.specs.Prelude.{true, false, if◌then◌else◌, Some, None, option_copied};
ghost use Rattle.std.specs.Prelude.{slice_get, OnOk, OnErr, IfOk, MatchOption};
ghost use Rattle.sg_base.specs.Ranking.{put_in};
ghost use Rattle.path_desk.specs.declared.entry.Entry.{Entry as PlainEntry};
ghost use Rattle.path_desk.specs.Entries.{Queued, queued, entry_cmp};
ghost use Rattle.path_desk.specs.Desks.{first_of, queue, put_queued, outscores, is_outscored};
ghost use Rattle.path_desk.specs.Orders.{InOrder};

use crate::entry::Entry;
use crate::held::Held;
use crate::spare::Spare;
use std::alloc::{AllocError, Global};
use std::marker::Model;

/// Entries in order, the first in order of all that were dropped, and entries that went, whose
/// memory those that come use again.
#[derive(Drop)]
pub struct Queue {
    waiting: Vec<Held>,
    dropped: Option<Held>,
    spare: Spare,
}

impl Model for Queue {
    ghost use Rattle.path_desk.specs.Desks.{PlainQueue};
    ghost use Rattle.path_desk.specs.Orders.{InOrder};

    ghost Value = { PlainQueue };

    ghost view = { λ q. record { waiting = q.waiting.items; dropped = q.dropped } };

    ghost invariant = { λ q. InOrder q.waiting.items };
}

// The place of an entry among those in order.
fn place_of(waiting: &[Held], entry: Entry, bytes: &[u8]) -> usize
    requires { InOrder waiting.now }
    ensures bound { result ≤ length waiting.now }
    ensures place { insert waiting.now result (queued entry bytes.now)
        ≡ put_in entry_cmp (queued entry bytes.now) waiting.now }
{
    waiting.partition_point(|held| held.compare(entry, bytes).is_lt())
}

// Keeps the first in order of an entry and the dropped one, and answers the other.
fn keep_first(dropped: &mut Option<Held>, held: Held) -> Option<Held>
    ensures { dropped.new ≡ Some (first_of held dropped.old) }
{
    let Some(other) = dropped.take() else {
        *dropped = Some(held);
        return None;
    };
    if other.compare(held.entry(), held.bytes()).is_lt() {
        *dropped = Some(other);
        Some(held)
    } else {
        *dropped = Some(held);
        Some(other)
    }
}

// Keeps the memory of an entry that goes.
fn give_held(spare: &mut Spare, held: Option<Held>) {
    if let Some(held) = held {
        spare.give(held);
    }
}

// Drops an entry that stands behind all queued ones. Its bytes are copied only where it is the
// first of all dropped ones.
fn remember(
    alloc: Global,
    spare: &mut Spare,
    dropped: &mut Option<Held>,
    entry: Entry,
    bytes: &[u8],
) -> Result<(), AllocError>
    ensures { OnOk result (dropped.new ≡ Some (first_of (queued entry bytes.now) dropped.old)) }
{
    let is_first = match dropped {
        None => true,
        Some(other) => !other.compare(entry, bytes).is_lt(),
    };
    if is_first {
        let held = spare.take(alloc, entry, bytes)?;
        give_held(spare, dropped.take());
        *dropped = Some(held);
    }
    Ok(())
}

// Takes the last one out, and puts one in.
fn exchange_last(waiting: &mut Vec<Held>, at: usize, held: Held) -> Result<Held, AllocError>
    requires { at < length waiting.old.items }
    ensures ok { IfOk result (λ last. (front : List Queued)
        × (waiting.old.items ≡ front ++ last ∷ []) × (waiting.new.items ≡ insert front at held)) }
    ensures err { OnErr result ((front : List Queued) × (last : Queued)
        × (waiting.old.items ≡ front ++ last ∷ []) × (waiting.new.items ≡ front)) }
{
    let Some(last) = waiting.pop() else {
        unreachable!()
    };
    waiting.insert(at, held)?;
    Ok(last)
}

// Leaves no entry, and keeps their memory.
fn give_all(spare: &mut Spare, waiting: &mut Vec<Held>)
    ensures { waiting.new.items ≡ [] }
{
    while let Some(held) = waiting.pop() {
        spare.give(held);
    }
}

// Whether an entry has a greater score, and an answer where there is none.
fn outscores(otherwise: bool, score: u64, held: Option<&Held>) -> bool
    ensures { result ≡ outscores otherwise score (option_copied held.entry) }
{
    match held {
        None => otherwise,
        Some(held) => score < held.entry().score,
    }
}

impl Queue {
    pub fn new(alloc: Global) -> Queue
        ensures { result ≡ queue [] None }
    {
        Queue {
            waiting: Vec::new(alloc),
            dropped: None,
            spare: Spare::new(alloc),
        }
    }

    /// Makes places for so many entries.
    pub fn reserve(&mut self, places: usize) -> Result<(), AllocError>
        ensures { self.new ≡ self.old }
    {
        self.waiting.reserve(places)?;
        self.spare.reserve(places)
    }

    pub fn clear(&mut self)
        ensures { self.new ≡ queue [] None }
    {
        give_all(&mut self.spare, &mut self.waiting);
        give_held(&mut self.spare, self.dropped.take());
    }

    pub fn len(&self) -> usize
        ensures { result ≡ length self.now.waiting }
    {
        self.waiting.len()
    }

    /// The entry that is taken next.
    pub fn first(&self) -> Option<&Held>
        ensures { option_copied result ≡ slice_get self.now.waiting 0 }
    {
        self.waiting.first()
    }

    /// The first in order of all dropped ones.
    pub fn dropped(&self) -> Option<&Held>
        ensures { option_copied result ≡ self.now.dropped }
    {
        self.dropped.as_ref()
    }

    fn put_within(&mut self, alloc: Global, entry: Entry, bytes: &[u8]) -> Result<(), AllocError>
        ensures value { OnOk result
            (self.new ≡ put_queued true (queued entry bytes.now) self.old) }
        ensures bound { length self.new.waiting ≤ length self.old.waiting + 1 }
    {
        let at = place_of(self.waiting.as_slice(), entry, bytes);
        let held = self.spare.take(alloc, entry, bytes)?;
        self.waiting.insert(at, held)?;
        Ok(())
    }

    // Only an entry that stays, or is the first of all dropped ones, gets bytes of its own.
    fn put_full(&mut self, alloc: Global, entry: Entry, bytes: &[u8]) -> Result<(), AllocError>
        ensures value { OnOk result
            (self.new ≡ put_queued false (queued entry bytes.now) self.old) }
        ensures bound { length self.new.waiting ≤ length self.old.waiting }
    {
        let at = place_of(self.waiting.as_slice(), entry, bytes);
        if at == self.waiting.len() {
            return remember(alloc, &mut self.spare, &mut self.dropped, entry, bytes);
        }
        let held = self.spare.take(alloc, entry, bytes)?;
        let last = exchange_last(&mut self.waiting, at, held)?;
        let behind = keep_first(&mut self.dropped, last);
        give_held(&mut self.spare, behind);
        Ok(())
    }

    /// Puts an entry in, and drops the last in order where there is no room for one more. Finds the
    /// place by halving, and moves the entries behind it.
    pub fn put(
        &mut self,
        alloc: Global,
        has_room: bool,
        entry: Entry,
        bytes: &[u8],
    ) -> Result<(), AllocError>
        ensures value { OnOk result
            (self.new ≡ put_queued has_room (queued entry bytes.now) self.old) }
        ensures bound { length self.new.waiting
            ≤ length self.old.waiting + (if has_room then 1 else 0) }
    {
        if has_room {
            self.put_within(alloc, entry, bytes)
        } else {
            self.put_full(alloc, entry, bytes)
        }
    }

    /// Whether an entry with this score would be dropped and change nothing, in a full queue.
    pub fn is_outscored(&self, score: u64) -> bool
        ensures exact { result ≡ is_outscored self.now score }
        ensures same { result ≡ true → (entry : PlainEntry) (bytes : List ℕ) → entry.score ≡ score
            → put_queued false (queued entry bytes) self.now ≡ self.now }
    {
        outscores(true, score, self.waiting.last())
            && outscores(false, score, self.dropped.as_ref())
    }

    /// Takes the first entry, and puts its bytes in the place of those in `path`.
    pub fn take_first(&mut self, path: &mut Vec<u8>) -> Option<Entry>
        ensures { MatchOption result ((self.old.waiting ≡ []) × (self.new ≡ self.old))
            (λ e. (self.old.waiting ≡ queued e path.new.items ∷ self.new.waiting)
            × (self.new.dropped ≡ self.old.dropped)) }
    {
        if self.waiting.is_empty() {
            return None;
        }
        let mut held = self.waiting.remove(0);
        let entry = held.entry();
        held.give_bytes(path);
        self.spare.give(held);
        Some(entry)
    }
}
