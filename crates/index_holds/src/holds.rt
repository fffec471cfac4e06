//! Counts of what holds each generation.
ghost use Rattle.std.specs.Prelude.{◌≡◌, ◌<◌, ◌+◌, [], All, OnErr, OnOk, false, filter, map, max};
ghost use Rattle.std.specs.Prelude.{vec_len};
ghost use Rattle.std.specs.List.Sorted.{IsStrictlyIncreasing};
ghost use Rattle.std.specs.Vec.{vec_capacity};
ghost use Rattle.index_holds.specs.Entries.{Rise, unheld};
ghost use Rattle.index_holds.specs.Holders.{after_release, after_retire, given_up, HasHolder};
ghost use Rattle.index_holds.specs.Holders.{HasRoom, IsCurrentAndHeld, is_held, is_used};
ghost use Rattle.index_holds.specs.Holders.{with_current, with_holder};

use crate::counting::{hold_each, release_each, retire_each};
use crate::filtering::{keep_unheld, keep_used};
use crate::freed::Freed;
use crate::held::Held;
use crate::searching::place_of;
use sg_base::List;
use std::alloc::{AllocError, Global};
use std::marker::Model;

/// The held generations, each with what holds it.
#[derive(Debug, Drop)]
pub struct Holds {
    /// By rising generation.
    entries: Vec<Held>,
    /// How many generations can be brought without taking memory.
    spare: u32,
}

impl Model for Holds {
    ghost use Rattle.std.specs.Prelude.{◌≤◌, ◌+◌, vec_len};
    ghost use Rattle.std.specs.Vec.{vec_capacity};
    ghost use Rattle.index_holds.specs.Entries.{AreUsed, Rise};
    ghost use Rattle.index_holds.specs.Holders.{PlainHolds};

    ghost Value = { PlainHolds };

    ghost view = { λ h. record { entries = h.entries.items; spare = h.spare } };

    ghost invariant = { λ h. Rise h.entries.items × AreUsed h.entries.items
        × (vec_len h.entries + h.spare ≤ vec_capacity h.entries) };
}

// A new generation goes to its place, and there is one.
fn put_current(entries: &mut Vec<Held>, generation: u32)
    requires rising { Rise entries.old.items }
    requires room { vec_len entries.old < vec_capacity entries.old }
    ensures items { entries.new.items ≡ with_current generation entries.old.items }
    ensures len { vec_len entries.new ≡ vec_len entries.old + 1 }
    ensures places { vec_capacity entries.new ≡ vec_capacity entries.old }
{
    let at = place_of(entries.as_slice(), generation);
    let held = Held {
        generation,
        current: true,
        holders: 0,
    };
    let Ok(()) = entries.insert(at, held) else {
        unreachable!()
    };
}

// Entries that nothing holds go, and those of the generations that nothing holds come back.
fn freed_of(entries: &mut Vec<Held>, gens: Vec<u32>) -> Freed
    requires rising { Rise entries.old.items }
    ensures items { entries.new.items ≡ filter is_used entries.old.items }
    ensures places { vec_capacity entries.new ≡ vec_capacity entries.old }
    ensures freed { result.gens.items ≡ unheld entries.new.items gens.items }
    ensures same { result.gens.places ≡ vec_capacity gens }
{
    let mut gens = gens;
    keep_used(entries);
    keep_unheld(&mut gens, entries.as_slice());
    Freed {
        gens: List::of(gens),
    }
}

impl Holds {
    /// Holds nothing.
    pub fn new(alloc: Global) -> Holds
        ensures entries { result.entries ≡ [] }
        ensures spare { result.spare ≡ 0 }
    {
        Holds {
            entries: Vec::new(alloc),
            spare: 0,
        }
    }

    /// Makes a new generation current, in a place that isn't one of the spare ones. Finds its place
    /// by halving, and moves those behind it: none, where it is the greatest.
    pub fn current(&mut self, generation: u32) -> Result<(), AllocError>
        requires new { is_held self.old.entries generation ≡ false }
        ensures ok { OnOk result (self.new.entries ≡ with_current generation self.old.entries) }
        ensures err { OnErr result (self.new.entries ≡ self.old.entries) }
        ensures spare { self.new.spare ≡ self.old.spare }
    {
        self.entries.reserve(self.spare as usize + 1)?;
        put_current(&mut self.entries, generation);
        Ok(())
    }

    /// Adds a holder to each of these. Takes no memory.
    pub fn hold(&mut self, gens: &[u32])
        requires rising { IsStrictlyIncreasing gens.now }
        requires room { All (HasRoom self.old.entries) gens.now }
        ensures entries { self.new.entries ≡ map (with_holder gens.now) self.old.entries }
        ensures spare { self.new.spare ≡ self.old.spare }
    {
        hold_each(&mut self.entries, gens);
    }

    /// Sees to it that at least so many places are spare.
    pub fn reserve(&mut self, places: u32) -> Result<(), AllocError>
        ensures ok { OnOk result (self.new.spare ≡ max self.old.spare places) }
        ensures err { OnErr result (self.new.spare ≡ self.old.spare) }
        ensures entries { self.new.entries ≡ self.old.entries }
    {
        if self.spare < places {
            self.entries.reserve(places as usize)?;
            self.spare = places;
        }
        Ok(())
    }

    /// Makes a new generation current, in a spare place. Takes no memory.
    pub fn bring(&mut self, generation: u32)
        requires new { is_held self.old.entries generation ≡ false }
        requires spare { 0 < self.old.spare }
        ensures entries { self.new.entries ≡ with_current generation self.old.entries }
        ensures spare { self.new.spare + 1 ≡ self.old.spare }
    {
        put_current(&mut self.entries, generation);
        self.spare -= 1;
    }

    /// Takes a holder from each of these, and answers those that nothing holds any more, in the
    /// given vector. Takes no memory.
    pub fn release(&mut self, gens: Vec<u32>) -> Freed
        requires rising { IsStrictlyIncreasing gens.items }
        requires held { All (HasHolder self.old.entries) gens.items }
        // What is held afterwards.
        ensures entries { self.new.entries ≡ after_release gens.items self.old.entries }
        ensures spare { self.new.spare ≡ self.old.spare }
        // What isn't any more.
        ensures freed { result.gens.items ≡ given_up self.old.entries self.new.entries }
        ensures rising { IsStrictlyIncreasing result.gens.items }
        ensures places { result.gens.places ≡ vec_capacity gens }
    {
        release_each(&mut self.entries, gens.as_slice());
        freed_of(&mut self.entries, gens)
    }

    /// Takes the holder of the merge that ends from each of these, makes them current no more, and
    /// answers those that nothing holds any more, in the given vector. Takes no memory.
    pub fn retire(&mut self, gens: Vec<u32>) -> Freed
        requires rising { IsStrictlyIncreasing gens.items }
        requires held { All (IsCurrentAndHeld self.old.entries) gens.items }
        // What is held afterwards.
        ensures entries { self.new.entries ≡ after_retire gens.items self.old.entries }
        ensures spare { self.new.spare ≡ self.old.spare }
        // What isn't any more.
        ensures freed { result.gens.items ≡ given_up self.old.entries self.new.entries }
        ensures rising { IsStrictlyIncreasing result.gens.items }
        ensures places { result.gens.places ≡ vec_capacity gens }
    {
        retire_each(&mut self.entries, gens.as_slice());
        freed_of(&mut self.entries, gens)
    }
}
