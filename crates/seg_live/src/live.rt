//! Which documents are live.
ghost use Rattle.std.specs.Prelude.{◌≡◌, ◌<◌, ◌∷◌, [], Bool, true, get_or, IfOk, length, replicate};
ghost use Rattle.std.specs.List.{All};
ghost use Rattle.seg_live.specs.LiveDocs.{live_count, live_without};

use crate::bits::Bits;
use std::alloc::{AllocError, Global};
use std::marker::Model;

/// Which documents of a segment are live, by place. A bit for each, and nothing where none was
/// deleted.
#[derive(Debug, Drop)]
pub struct Live {
    alloc: Global,
    len: u32,
    /// None while all are live.
    bits: Option<Bits>,
}

impl Model for Live {
    ghost use Rattle.std.specs.Prelude.{◌≡◌, List, Bool, length};
    ghost use Rattle.std.specs.Option.{IfSome};
    ghost use Rattle.seg_live.specs.Bits.{bits_or_all};

    ghost Value = { List Bool };

    ghost view = { λ l. bits_or_all l.len l.bits };

    ghost invariant = { λ l. IfSome l.bits (λ b. length b ≡ l.len) };
}

impl Live {
    /// All of so many documents are live. Takes no memory.
    pub fn all(alloc: Global, count: u32) -> Live
        ensures { result ≡ replicate count true }
    {
        Live {
            alloc,
            len: count,
            bits: None,
        }
    }

    /// Whether the document at a place is live.
    pub fn is_live(&self, doc: u32) -> bool
        requires { doc < length self.now }
        ensures { (b : Bool) → result ≡ get_or self.now doc b }
    {
        match &self.bits {
            Some(bits) => bits.is_live(doc),
            None => true,
        }
    }

    /// How many documents are live.
    pub fn count(&self) -> u32
        ensures { result ≡ live_count self.now }
    {
        match &self.bits {
            Some(bits) => bits.count(),
            None => self.len,
        }
    }

    // The bits of all documents.
    fn bits_of(&self) -> Result<Bits, AllocError>
        ensures { IfOk result (λ bits. bits ≡ self.now) }
    {
        match &self.bits {
            Some(bits) => bits.copy(),
            None => Bits::all(self.alloc, self.len),
        }
    }

    /// The same without the documents at these places: a copy of the bits, and a step a place.
    pub fn with_dead(&self, dead: &[u32]) -> Result<Live, AllocError>
        requires { All (λ doc. doc < length self.now) dead.now }
        ensures { IfOk result (λ live. live ≡ live_without 0 dead.now self.now) }
    {
        let mut bits = self.bits_of()?;
        for doc in dead {
            bits.delete(*doc);
        }
        Ok(Live {
            alloc: self.alloc,
            len: self.len,
            bits: Some(bits),
        })
    }
}
