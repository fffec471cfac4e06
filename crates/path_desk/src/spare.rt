//! Entries that went, whose memory those that come use again.
ghost use Rattle.std.specs.Prelude.{◌≡◌, IfOk};
ghost use Rattle.path_desk.specs.Entries.{queued};

use crate::entry::Entry;
use crate::held::Held;
use std::alloc::{AllocError, Global};

/// Entries that went, with their memory: a search whose desk is warm takes none.
#[derive(Drop)]
pub struct Spare {
    free: Vec<Held>,
}

impl Spare {
    pub fn new(alloc: Global) -> Spare {
        Spare {
            free: Vec::new(alloc),
        }
    }

    /// Makes places for so many.
    pub fn reserve(&mut self, places: usize) -> Result<(), AllocError> {
        self.free.reserve(places)
    }

    /// An entry with a copy of these bytes, in the memory of one that went, where there is one.
    pub fn take(&mut self, alloc: Global, entry: Entry, bytes: &[u8]) -> Result<Held, AllocError>
        ensures { IfOk result (λ h. h ≡ queued entry bytes.now) }
    {
        match self.free.pop() {
            None => Held::of(alloc, entry, bytes),
            Some(held) => rewritten(held, entry, bytes),
        }
    }

    /// Keeps the memory of an entry that goes, where there is a place.
    pub fn give(&mut self, held: Held) {
        if self.free.len() < self.free.capacity() {
            self.free.push_reserved(held);
        }
    }
}

fn rewritten(mut held: Held, entry: Entry, bytes: &[u8]) -> Result<Held, AllocError>
    ensures { IfOk result (λ h. h ≡ queued entry bytes.now) }
{
    held.write(entry, bytes)?;
    Ok(held)
}
