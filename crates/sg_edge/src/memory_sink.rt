//! A sink that keeps its bytes in memory.
ghost use Rattle.std.specs.Prelude.{◌≡◌, ◌≤◌, ◌↔◌, [], Some};
ghost use Rattle.std.specs.Prelude.{length, take, Contains, IfOk, IsErrOf, OnErr};
ghost use Rattle.sg_edge.specs.Edge.{next_count, behind};
ghost use Rattle.sg_edge.specs.Puts.{PutCause};
ghost use Rattle.sg_edge.specs.MemorySinks.{IsAtNextCall};

use crate::sink::{PutError, Sink};
use std::marker::Model;

/// A sink that keeps its bytes in memory, and of which a listed call fails.
#[derive(Debug, Drop)]
pub struct MemorySink {
    bytes: Vec<u8>,
    fails: Vec<u64>,
    calls: u64,
    faults: u64,
}

impl Model for MemorySink {
    ghost use Rattle.sg_edge.specs.MemorySinks.{PlainMemorySink};

    ghost Value = { PlainMemorySink };

    ghost view = { λ s. record {
      given = s.bytes.items;
      fails = s.fails.items;
      calls = s.calls;
      faults = s.faults;
    } };
}

impl MemorySink {
    /// A sink with nothing in it. `fails` lists the calls of `put` that fail, counted from 1.
    pub fn new(fails: Vec<u64>) -> MemorySink
        ensures { result ≡ record { given = []; fails = fails.items; calls = 0; faults = 0 } }
    {
        MemorySink {
            bytes: Vec::new(*fails.allocator()),
            fails,
            calls: 0,
            faults: 0,
        }
    }

    /// The bytes that it was given, in order.
    pub fn given(&self) -> &[u8]
        ensures { result.now ≡ self.now.given }
    {
        self.bytes.as_slice()
    }
}

impl Sink for MemorySink {
    ghost given = { λ s. Some s.given };

    ghost faults = { λ s. s.faults };

    fn put(&mut self, piece: &[u8]) -> Result<usize, PutError>
        // What every sink says.
        ensures within { IfOk result (λ n. n ≤ length piece.now) }
        ensures ok { IfOk result
            (λ n. Some self.new.given ≡ behind (take n piece.now) (Some self.old.given)) }
        ensures err { OnErr result (Some self.new.given ≡ Some self.old.given) }
        ensures zero { IfOk result (λ n. n ≡ 0 → length piece.now ≡ 0) }
        ensures cause { PutCause self.old.faults self.new.faults result }

        // Which calls fail, and how many bytes the others move.
        ensures failed { IsErrOf result PutError.Failed
            ↔ Contains self.old.fails (next_count self.old.calls) }
        ensures exact { IfOk result (λ n. n ≡ length piece.now) }
        ensures next { IsAtNextCall self.old self.new }
    {
        self.calls = self.calls.saturating_add(1);
        if self.fails.contains(&self.calls) {
            self.faults = self.faults.saturating_add(1);
            return Err(PutError::Failed);
        }
        self.bytes.extend_from_slice(piece)?;
        Ok(piece.len())
    }
}
