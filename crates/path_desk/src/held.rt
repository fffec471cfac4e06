//! Entries with their bytes, as the queue holds them.
ghost use Rattle.std.specs.Prelude.{◌≡◌, ◌<◌, [], IfOk, OnOk, IfSome, length};
ghost use Rattle.std.specs.List.{position_from};
ghost use Rattle.std.specs.Ordering.{is_lt};
ghost use Rattle.sg_base.specs.Cuts.{mark, mark_cmp};
ghost use Rattle.path_desk.specs.Entries.{queued, entry_cmp, key_part, mark_of};
ghost use Rattle.path_desk.specs.Orders.{tie_cmp, ends_key};

use crate::entry::Entry;
use sg_base::KEY_END;
use std::alloc::{AllocError, Global};
use std::cmp::Ordering;
use std::marker::Model;
use std::mem::swap;

/// An entry with its path bytes after the context. It stays where it is: a queue moves the pointer
/// to it alone.
#[derive(Drop)]
pub struct Held {
    inside: Box<Inside>,
}

#[derive(Drop)]
struct Inside {
    entry: Entry,
    bytes: Vec<u8>,
}

impl Model for Held {
    ghost use Rattle.path_desk.specs.Entries.{Queued};

    ghost Value = { Queued };

    ghost view = { λ h. record {
      entry = h.inside.value.entry;
      bytes = h.inside.value.bytes.items;
    } };
}

fn ends_key(byte: u8) -> bool
    ensures { result ≡ ends_key byte }
{
    byte == KEY_END
}

fn key_end(bytes: &[u8]) -> Option<usize>
    ensures first { result ≡ position_from ends_key 0 bytes.now }
    ensures within { IfSome result (λ at. at < length bytes.now) }
{
    bytes.iter().position(|byte| ends_key(*byte))
}

/// The bytes before the first 0.
pub fn key_part(bytes: &[u8]) -> &[u8]
    ensures { result.now ≡ key_part bytes.now }
{
    match key_end(bytes) {
        Some(at) => &bytes[..at],
        None => bytes,
    }
}

// Where scores are equal: key bytes, start, the rest.
fn tie_cmp(a: &[u8], a_start: u32, b: &[u8], b_start: u32) -> Ordering
    ensures { result ≡ tie_cmp a.now a_start b.now b_start }
{
    if a_start == b_start {
        return a.cmp(b);
    }
    key_part(a).cmp(key_part(b)).then(a_start.cmp(&b_start))
}

impl Held {
    /// An entry with a copy of these bytes.
    pub fn of(alloc: Global, entry: Entry, bytes: &[u8]) -> Result<Held, AllocError>
        ensures { IfOk result (λ h. h ≡ queued entry bytes.now) }
    {
        let bytes = Vec::from_slice(alloc, bytes)?;
        let inside = Box::new(alloc, Inside { entry, bytes })?;
        Ok(Held { inside })
    }

    /// Another entry in the same memory. Takes more only for bytes that don't fit.
    pub fn write(&mut self, entry: Entry, bytes: &[u8]) -> Result<(), AllocError>
        ensures { OnOk result (self.new ≡ queued entry bytes.now) }
    {
        self.inside.entry = entry;
        self.inside.bytes.clear();
        self.inside.bytes.extend_from_slice(bytes)
    }

    /// Gives its bytes away, and keeps the memory of those that were there.
    pub fn give_bytes(&mut self, to: &mut Vec<u8>)
        ensures { to.new.items ≡ self.old.bytes }
    {
        swap(&mut self.inside.bytes, to);
    }

    pub fn entry(&self) -> Entry
        ensures { result ≡ self.now.entry }
    {
        self.inside.entry
    }

    pub fn bytes(&self) -> &[u8]
        ensures { result.now ≡ self.now.bytes }
    {
        self.inside.bytes.as_slice()
    }

    /// Where it stands beside an entry with these bytes.
    pub fn compare(&self, entry: Entry, bytes: &[u8]) -> Ordering
        ensures { result ≡ entry_cmp self.now (queued entry bytes.now) }
    {
        let own = self.entry();
        if entry.score != own.score {
            return entry.score.cmp(&own.score);
        }
        tie_cmp(self.bytes(), own.start, bytes, entry.start)
    }

    /// Whether a row with this score and key stands before it.
    pub fn is_after(&self, score: u64, key: &[u8]) -> bool
        ensures { result ≡ is_lt (mark_cmp (mark score key.now) (mark_of self.now)) }
    {
        let order = self
            .entry()
            .score
            .cmp(&score)
            .then(key.cmp(key_part(self.bytes())));
        order.is_lt()
    }
}
