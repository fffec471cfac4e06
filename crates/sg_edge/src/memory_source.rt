//! A source whose bytes stand in memory.
ghost use Rattle.std.specs.Prelude.{◌≡◌, ◌≤◌, ◌<◌, ◌↔◌, Some, [], false};
ghost use Rattle.std.specs.Prelude.{length, take, Contains, IfOk, IsErr, OnErr};
ghost use Rattle.sg_edge.specs.Edge.{next_count, in_front, is_end, EndCause, TakeCause};
ghost use Rattle.sg_edge.specs.MemorySources.{through_line_feed, next_bytes, IsAtNextCall};

use crate::line_feeds::line_feed_at;
use crate::source::{Failed, Source};
use std::marker::Model;

/// A source whose bytes stand in memory, and of which a listed call fails.
#[derive(Debug, Drop)]
pub struct MemorySource {
    bytes: Vec<u8>,
    at: usize,
    by_line: bool,
    fails: Vec<u64>,
    calls: u64,
    faults: u64,
    ended: bool,
}

impl Model for MemorySource {
    ghost use Rattle.std.specs.Prelude.{◌≤◌, drop};
    ghost use Rattle.std.specs.Vec.{vec_len};
    ghost use Rattle.sg_edge.specs.MemorySources.{PlainMemorySource};

    ghost Value = { PlainMemorySource };

    ghost view = { λ s. record {
      left = drop s.at s.bytes.items;
      by_line = s.by_line;
      fails = s.fails.items;
      calls = s.calls;
      faults = s.faults;
      ended = s.ended;
    } };

    ghost invariant = { λ s. s.at ≤ vec_len s.bytes };
}

impl MemorySource {
    /// A source of these bytes. `fails` lists the calls of `take` that fail, counted from 1. With
    /// `by_line` a take ends after the next line feed.
    pub fn new(bytes: Vec<u8>, by_line: bool, fails: Vec<u64>) -> MemorySource
        ensures { result ≡ record {
          left = bytes.items;
          by_line = by_line;
          fails = fails.items;
          calls = 0;
          faults = 0;
          ended = false;
        } }
    {
        MemorySource {
            bytes,
            at: 0,
            by_line,
            fails,
            calls: 0,
            faults: 0,
            ended: false,
        }
    }

    /// The bytes that no take has moved yet.
    pub fn left(&self) -> &[u8]
        ensures { result.now ≡ self.now.left }
    {
        &self.bytes.as_slice()[self.at..]
    }
}

// How many bytes stand through the first line feed, or in all.
fn line_len(bytes: &[u8]) -> usize
    ensures exact { result ≡ length (through_line_feed bytes.now) }
    ensures within { result ≤ length bytes.now }
{
    match line_feed_at(bytes) {
        Some(at) => at + 1,
        None => bytes.len(),
    }
}

// How many bytes a take moves into so much room.
fn next_len(left: &[u8], by_line: bool, room: usize) -> usize
    ensures exact { result ≡ length (next_bytes by_line room left.now) }
    ensures within { result ≤ room }
    ensures there { result ≤ length left.now }
    ensures zero { result ≡ 0 → 0 < room → left.now ≡ [] }
{
    let fits = &left[..left.len().min(room)];
    if by_line { line_len(fits) } else { fits.len() }
}

// Copies the first bytes of one slice into the front of another.
fn copy_front(from: &[u8], into: &mut [u8], count: usize)
    requires from { count ≤ length from.now }
    requires into { count ≤ length into.old }
    ensures { take count into.new ≡ take count from.now }
{
    into[..count].copy_from_slice(&from[..count]);
}

impl Source for MemorySource {
    ghost left = { λ s. Some s.left };

    ghost faults = { λ s. s.faults };

    ghost ended = { λ s. s.ended };

    /// Takes no memory.
    fn take(&mut self, into: &mut [u8]) -> Result<usize, Failed>
        // What every source says.
        ensures within { IfOk result (λ n. n ≤ length into.new) }
        ensures ok { IfOk result
            (λ n. Some self.old.left ≡ in_front (take n into.new) (Some self.new.left)) }
        ensures err { OnErr result (Some self.new.left ≡ Some self.old.left) }
        ensures zero { EndCause (Some self.new.left) (length into.new) result }
        ensures ended { 0 < length into.new → self.new.ended ≡ is_end result }
        ensures unchanged { length into.new ≡ 0 → self.new.ended ≡ self.old.ended }
        ensures cause { TakeCause self.old.faults self.new.faults result }

        // Which calls fail, and how many bytes the others move.
        ensures failed { IsErr result ↔ Contains self.old.fails (next_count self.old.calls) }
        ensures exact { IfOk result
            (λ n. n ≡ length (next_bytes self.old.by_line (length into.new) self.old.left)) }
        ensures next { IsAtNextCall self.old self.new }
    {
        self.calls = self.calls.saturating_add(1);
        if self.fails.contains(&self.calls) {
            self.faults = self.faults.saturating_add(1);
            self.ended = self.ended && into.is_empty();
            return Err(Failed);
        }
        let count = next_len(self.left(), self.by_line, into.len());
        copy_front(self.left(), into, count);
        self.at += count;
        if !into.is_empty() {
            self.ended = count == 0;
        }
        Ok(count)
    }
}
