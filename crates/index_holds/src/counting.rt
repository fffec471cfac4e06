//! Holders more and fewer.
ghost use Rattle.std.specs.Prelude.{◌≡◌, ◌<◌, ◌^◌, ◌-◌, true, map};
ghost use Rattle.std.specs.List.Sorted.{IsStrictlyIncreasing};
ghost use Rattle.std.specs.Vec.{vec_capacity};
ghost use Rattle.index_holds.specs.Entries.{HaveHolders, HaveRoom};
ghost use Rattle.index_holds.specs.Holders.{is_among, with_holder, without_current};
ghost use Rattle.index_holds.specs.Holders.{without_holder};

use crate::held::Held;
use crate::searching::is_among;

fn hold_one(entry: &mut Held, gens: &[u32])
    requires rising { IsStrictlyIncreasing gens.now }
    requires room { is_among entry.old.generation gens.now ≡ true
        → entry.old.holders < 2 ^ 32 - 1 }
    ensures { entry.new ≡ with_holder gens.now entry.old }
{
    if is_among(entry.generation, gens) {
        entry.holders += 1;
    }
}

fn release_one(entry: &mut Held, gens: &[u32])
    requires rising { IsStrictlyIncreasing gens.now }
    requires held { is_among entry.old.generation gens.now ≡ true → 0 < entry.old.holders }
    ensures { entry.new ≡ without_holder gens.now entry.old }
{
    if is_among(entry.generation, gens) {
        entry.holders -= 1;
    }
}

fn retire_one(entry: &mut Held, gens: &[u32])
    requires rising { IsStrictlyIncreasing gens.now }
    requires held { is_among entry.old.generation gens.now ≡ true → 0 < entry.old.holders }
    ensures { entry.new ≡ without_current gens.now entry.old }
{
    if is_among(entry.generation, gens) {
        entry.current = false;
        entry.holders -= 1;
    }
}

/// One holder more for each of these.
pub fn hold_each(entries: &mut Vec<Held>, gens: &[u32])
    requires rising { IsStrictlyIncreasing gens.now }
    requires room { HaveRoom gens.now entries.old.items }
    ensures items { entries.new.items ≡ map (with_holder gens.now) entries.old.items }
    ensures places { vec_capacity entries.new ≡ vec_capacity entries.old }
{
    for entry in entries.iter_mut() {
        hold_one(entry, gens);
    }
}

/// One holder fewer for each of these.
pub fn release_each(entries: &mut Vec<Held>, gens: &[u32])
    requires rising { IsStrictlyIncreasing gens.now }
    requires held { HaveHolders gens.now entries.old.items }
    ensures items { entries.new.items ≡ map (without_holder gens.now) entries.old.items }
    ensures places { vec_capacity entries.new ≡ vec_capacity entries.old }
{
    for entry in entries.iter_mut() {
        release_one(entry, gens);
    }
}

/// The same, and they aren't current any more.
pub fn retire_each(entries: &mut Vec<Held>, gens: &[u32])
    requires rising { IsStrictlyIncreasing gens.now }
    requires held { HaveHolders gens.now entries.old.items }
    ensures items { entries.new.items ≡ map (without_current gens.now) entries.old.items }
    ensures places { vec_capacity entries.new ≡ vec_capacity entries.old }
{
    for entry in entries.iter_mut() {
        retire_one(entry, gens);
    }
}
