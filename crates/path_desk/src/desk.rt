//! The workspace.
ghost use Rattle.std.specs.Prelude.{◌≡◌, ◌<◌, ◌≤◌, ◌+◌, ◌++◌, [], ◌∷◌, List, ℕ, true, None, Some};
ghost use Rattle.std.specs.Prelude.{OnOk, OnErr, IfOk, IsSome, MatchOption, option_copied};
ghost use Rattle.std.specs.Prelude.{option_map, if◌then◌else◌, nat_lt};
ghost use Rattle.std.specs.Vec.{vec_capacity};
ghost use Rattle.sg_base.specs.Cuts.{mark};
ghost use Rattle.path_desk.specs.declared.entry.Entry.{Entry as PlainEntry};
ghost use Rattle.path_desk.specs.Entries.{Queued, queued};
ghost use Rattle.path_desk.specs.Desks.{new_desk, cleared, put_entry, following, stepped, path_of};
ghost use Rattle.path_desk.specs.Desks.{path_ended, is_settled, is_behind, is_before, cut_at};
ghost use Rattle.path_desk.specs.Desks.{reserved, with_lists, taken_back, taken_room, has_room};

use crate::entry::Entry;
use crate::held::{Held, key_part};
use crate::lists::Lists;
use crate::need::Need;
use crate::queue::Queue;
use crate::report::SegReport;
use sg_base::{Bytes, Cut, Hit};
use std::alloc::{AllocError, Global};
use std::marker::Model;

/// The workspace of a search. An entry that comes takes over the memory of one that went.
#[derive(Drop)]
pub struct Desk {
    alloc: Global,
    need: Need,
    room: u32,
    queue: Queue,
    reached: u32,
    is_following: bool,
    path: Vec<u8>,
    lists: Lists,
}

impl Model for Desk {
    ghost use Rattle.std.specs.Prelude.{◌≡◌, ◌≤◌, ◌+◌, Some, None, if◌then◌else◌, length};
    ghost use Rattle.path_desk.specs.Desks.{PlainDesk, taken_room};

    ghost Value = { PlainDesk };

    ghost view = { λ d. record {
      need = d.need;
      room = d.room;
      waiting = d.queue.waiting;
      reached = d.reached;
      followed = if d.is_following then Some d.path.items else None;
      dropped = d.queue.dropped;
      lists = d.lists.count;
    } };

    ghost invariant = { λ d. (d.lists.places ≡ d.need.k)
        × (length d.queue.waiting
        + taken_room d.reached (if d.is_following then Some d.path.items else None) ≤ d.room) };
}

fn is_before(score: u64, key: &[u8], held: Option<&Held>) -> bool
    ensures { result ≡ is_before (mark score key.now) (option_copied held.entry) }
{
    match held {
        None => true,
        Some(held) => held.is_after(score, key),
    }
}

fn taken_room(reached: u32, is_following: bool) -> u64
    ensures { (path : List ℕ)
        → result ≡ taken_room reached (if is_following then Some path else None) }
{
    if is_following {
        reached as u64 + 1
    } else {
        reached as u64
    }
}

fn is_below(queued: usize, taken: u64, room: u32) -> bool
    requires { queued + taken ≤ room }
    ensures { result ≡ nat_lt (queued + taken) room }
{
    queued as u64 + taken < room as u64
}

fn cut_of(alloc: Global, held: &Held, generation: u32, room: u32) -> Result<Cut, AllocError>
    ensures { IfOk result (λ c. c ≡ cut_at generation room held.now) }
{
    Ok(Cut {
        score: held.entry().score,
        key: Bytes::of(alloc, key_part(held.bytes()))?,
        generation,
        room,
    })
}

impl Desk {
    /// A desk with nothing reserved. Takes no memory.
    pub fn new(alloc: Global) -> Desk
        ensures { result ≡ new_desk }
    {
        Desk {
            alloc,
            need: Need {
                room: 0,
                bytes: 0,
                k: 0,
            },
            room: 0,
            queue: Queue::new(alloc),
            reached: 0,
            is_following: false,
            path: Vec::new(alloc),
            lists: Lists::new(),
        }
    }

    /// Reserves the queue's places, and two lists of k hits. Where they are there already it takes
    /// no memory.
    pub fn reserve(&mut self, need: Need) -> Result<(), AllocError>
        ensures ok { OnOk result (self.new ≡ reserved self.old need) }
        ensures err { OnErr result (self.new ≡ self.old) }
    {
        self.queue.reserve(need.room as usize + 2)?;
        self.lists.reserve(self.alloc, need.k)?;
        self.need = need;
        Ok(())
    }

    /// Begins a search with this queue size.
    pub fn begin(&mut self, room: u32)
        ensures { self.new ≡ cleared self.old room }
    {
        self.room = room;
        self.queue.clear();
        self.reached = 0;
        self.is_following = false;
        self.path.clear();
    }

    /// Puts a start in, with its key bytes. After an Err the next call on the queue is `begin`.
    pub fn put_start(&mut self, entry: Entry, key: &[u8]) -> Result<(), AllocError>
        ensures ok { OnOk result (self.new ≡ put_entry self.old (queued entry key.now)) }
        ensures lists { self.new.lists ≡ self.old.lists }
        ensures need { self.new.need ≡ self.old.need }
    {
        let has_room = self.has_room();
        self.queue.put(self.alloc, has_room, entry, key)
    }

    /// Takes the first queued entry, whose bytes become the followed path.
    pub fn follow(&mut self) -> Option<Entry>
        requires { self.old.followed ≡ None }
        ensures { MatchOption result ((self.old.waiting ≡ []) × (self.new ≡ self.old))
            (λ e. (path : List ℕ) × (rest : List Queued)
            × (self.old.waiting ≡ queued e path ∷ rest)
            × (self.new ≡ following self.old rest path)) }
    {
        let entry = self.queue.take_first(&mut self.path)?;
        self.is_following = true;
        Some(entry)
    }

    /// Whether an entry with this score would be dropped and change nothing, so that `put` may be
    /// left out. One look at two scores.
    pub fn is_behind(&self, score: u64) -> bool
        ensures exact { result ≡ is_behind self.now score }
        ensures same { result ≡ true → (entry : PlainEntry) (bytes : List ℕ) → entry.score ≡ score
            → put_entry self.now (queued entry bytes) ≡ self.now }
    {
        !self.has_room() && self.queue.is_outscored(score)
    }

    /// Puts an entry in with the followed path's bytes and then the label. After an Err the next
    /// call on the queue is `begin`.
    pub fn put(&mut self, entry: Entry, label: u8) -> Result<(), AllocError>
        requires { IsSome self.old.followed }
        ensures ok { OnOk result
            (self.new ≡ put_entry self.old (queued entry (path_of self.old ++ label ∷ []))) }
        ensures lists { self.new.lists ≡ self.old.lists }
        ensures need { self.new.need ≡ self.old.need }
    {
        let has_room = self.has_room();
        // The label stands at the path's end while its bytes are compared and copied.
        self.path.push(label)?;
        self.queue
            .put(self.alloc, has_room, entry, self.path.as_slice())?;
        self.path.pop();
        Ok(())
    }

    /// Adds a label to the followed path. After an Err the next call on the queue is `begin`.
    pub fn step(&mut self, label: u8) -> Result<(), AllocError>
        requires { IsSome self.old.followed }
        ensures ok { OnOk result (self.new ≡ stepped self.old label) }
        ensures lists { self.new.lists ≡ self.old.lists }
        ensures need { self.new.need ≡ self.old.need }
    {
        self.path.push(label)?;
        Ok(())
    }

    /// Ends the followed path.
    pub fn reached(&mut self)
        requires { IsSome self.old.followed }
        ensures { self.new ≡ path_ended self.old }
    {
        self.is_following = false;
        self.reached += 1;
    }

    /// Whether no path that is still to come, or was dropped, can stand before a row with this
    /// score and key.
    pub fn is_settled(&self, score: u64, key: &[u8]) -> bool
        ensures { result ≡ is_settled self.now (mark score key.now) }
    {
        is_before(score, key, self.queue.first()) && is_before(score, key, self.queue.dropped())
    }

    /// The truncation point at the first of all dropped entries.
    pub fn cut(&mut self, generation: u32) -> Result<Option<Cut>, AllocError>
        requires { self.old.waiting ≡ [] }
        ensures ok { IfOk result
            (λ c. c ≡ option_map (cut_at generation self.old.room) self.old.dropped) }
        ensures unchanged { self.new ≡ self.old }
    {
        match self.queue.dropped() {
            None => Ok(None),
            Some(held) => Ok(Some(cut_of(self.alloc, held, generation, self.room)?)),
        }
    }

    /// An empty list with the reserved places.
    pub fn hits(&mut self) -> Vec<Hit>
        requires { 0 < self.old.lists }
        ensures empty { result.items ≡ [] }
        ensures places { self.old.need.k ≤ vec_capacity result }
        ensures desk { with_lists self.new (self.new.lists + 1) ≡ self.old }
        ensures most { self.new.lists < 2 }
    {
        self.lists.take()
    }

    /// Keeps the list of a report, where there are fewer than two and it has the reserved places.
    pub fn take_back(&mut self, report: SegReport)
        ensures { self.new ≡ taken_back self.old report.hits.places }
    {
        let SegReport { hits, .. } = report;
        self.lists.give(hits.into_vec());
    }

    // Whether one more fits beside the queued entries, the paths reached and the followed one.
    fn has_room(&self) -> bool
        ensures { result ≡ has_room self.now }
    {
        let taken = taken_room(self.reached, self.is_following);
        is_below(self.queue.len(), taken, self.room)
    }
}
