//! A source over a reader of std.
ghost use Rattle.std.specs.Prelude.{◌≡◌, ◌≤◌, ◌<◌, None, false, length, IfOk};
ghost use Rattle.sg_edge.specs.Edge.{is_end, TakeCause};

use crate::source::{Failed, Source};
use std::io::Read;
use std::marker::Model;

/// A source over a reader of std. It tells no content, and counts each Err as a fault.
#[derive(Drop)]
pub struct StdSource<R> {
    reader: R,
    faults: u64,
    ended: bool,
}

impl<R> Model for StdSource<R> {
    ghost use Rattle.sg_edge.specs.StdEnds.{PlainStdSource};

    ghost Value = { PlainStdSource };

    ghost view = { λ s. record { faults = s.faults; ended = s.ended } };
}

impl<R: Read> StdSource<R> {
    pub fn new(reader: R) -> StdSource<R>
        ensures { result ≡ record { faults = 0; ended = false } }
    {
        StdSource {
            reader,
            faults: 0,
            ended: false,
        }
    }
}

impl<R: Read> Source for StdSource<R> {
    ghost left = { λ _. None };

    ghost faults = { λ s. s.faults };

    ghost ended = { λ s. s.ended };

    fn take(&mut self, into: &mut [u8]) -> Result<usize, Failed>
        // What every source says, but for the content.
        ensures within { IfOk result (λ n. n ≤ length into.new) }
        ensures ended { 0 < length into.new → self.new.ended ≡ is_end result }
        ensures unchanged { length into.new ≡ 0 → self.new.ended ≡ self.old.ended }
        ensures cause { TakeCause self.old.faults self.new.faults result }
    {
        let taken = self.reader.read(into).map_err(|_| Failed);
        if taken.is_err() {
            self.faults = self.faults.saturating_add(1);
        }
        if !into.is_empty() {
            self.ended = taken == Ok(0);
        }
        taken
    }
}
