//! Live docs in words of bits.
ghost use Rattle.std.specs.Prelude.{◌≡◌, ◌≤◌, ◌<◌, ◌-◌, ◌*◌, ◌/◌, ◌%◌, ◌^◌, ◌∷◌, []};
ghost use Rattle.std.specs.Prelude.{Bool, true, get_or, set, bit_and, IfOk, length, replicate};
ghost use Rattle.std.specs.Int.{bit_not, w64};
ghost use Rattle.seg_live.specs.LiveDocs.{live_count, live_without};
ghost use Rattle.seg_live.specs.Bits.{is_set};

use std::alloc::{AllocError, Global};
use std::marker::Model;

/// Which documents of a segment are live, a bit each, by place.
#[derive(Debug, Drop)]
pub(crate) struct Bits {
    /// The bit of a place is in its 64th part, the lowest first.
    words: Vec<u64>,
    len: u32,
    count: u32,
}

impl Model for Bits {
    ghost use Rattle.std.specs.Prelude.{List, Bool, ◌≤◌, ◌≡◌, ◌*◌, length};
    ghost use Rattle.seg_live.specs.LiveDocs.{live_count};
    ghost use Rattle.seg_live.specs.Bits.{bits_from};

    ghost Value = { List Bool };

    ghost view = { λ l. bits_from l.words.items 0 l.len };

    ghost invariant = { λ l. (l.len ≤ 64 * length l.words.items)
        × (l.count ≡ live_count (bits_from l.words.items 0 l.len)) };
}

fn is_bit_set(words: &[u64], place: u32) -> bool
    requires { place < 64 * length words.now }
    ensures { result ≡ is_set words.now place }
{
    (words[(place / 64) as usize] >> (place % 64)) & 1 == 1
}

fn word_at(words: &[u64], at: usize) -> u64
    requires { at < length words.now }
    ensures { result ≡ get_or words.now at 0 }
{
    words[at]
}

fn clear_bit(words: &mut Vec<u64>, place: u32)
    requires { place < 64 * length words.old.items }
    ensures { words.new.items ≡ set words.old.items (place / 64)
        (bit_and (get_or words.old.items (place / 64) 0)
        (bit_not w64 (1 * 2 ^ (place % 64) % 2 ^ 64))) }
{
    let at = (place / 64) as usize;
    let word = word_at(words.as_slice(), at);
    words[at] = word & !(1u64 << (place % 64));
}

impl Bits {
    /// A bit for each of so many documents, all of which are live.
    pub(crate) fn all(alloc: Global, count: u32) -> Result<Bits, AllocError>
        ensures { IfOk result (λ bits. bits ≡ replicate count true) }
    {
        let words = count.div_ceil(64) as usize;
        Ok(Bits {
            words: vec![in alloc; u64::MAX; words]?,
            len: count,
            count,
        })
    }

    /// Whether the document at a place is live.
    pub(crate) fn is_live(&self, doc: u32) -> bool
        requires { doc < length self.now }
        ensures { (b : Bool) → result ≡ get_or self.now doc b }
    {
        is_bit_set(self.words.as_slice(), doc)
    }

    /// How many documents are live.
    pub(crate) fn count(&self) -> u32
        ensures { result ≡ live_count self.now }
    {
        self.count
    }

    pub(crate) fn copy(&self) -> Result<Bits, AllocError>
        ensures { IfOk result (λ bits. bits ≡ self.now) }
    {
        Ok(Bits {
            words: Vec::from_slice(*self.words.allocator(), self.words.as_slice())?,
            len: self.len,
            count: self.count,
        })
    }

    pub(crate) fn delete(&mut self, doc: u32)
        requires { doc < length self.old }
        ensures { self.new ≡ live_without 0 (doc ∷ []) self.old }
    {
        if !is_bit_set(self.words.as_slice(), doc) {
            return;
        }
        clear_bit(&mut self.words, doc);
        self.count -= 1;
    }
}
