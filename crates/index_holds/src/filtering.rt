//! What isn't held any more goes.
ghost use Rattle.std.specs.Prelude.{◌≡◌, filter};
ghost use Rattle.std.specs.Vec.{vec_capacity};
ghost use Rattle.index_holds.specs.Entries.{Rise, unheld};
ghost use Rattle.index_holds.specs.Holders.{is_used};

use crate::held::Held;
use crate::searching::is_held;

fn is_used(entry: Held) -> bool
    ensures { result ≡ is_used entry }
{
    entry.current || 0 < entry.holders
}

/// Leaves the entries that something holds.
pub fn keep_used(entries: &mut Vec<Held>)
    ensures items { entries.new.items ≡ filter is_used entries.old.items }
    ensures places { vec_capacity entries.new ≡ vec_capacity entries.old }
{
    let mut kept = 0usize;
    for at in 0..entries.len() {
        let entry = entries[at];
        if is_used(entry) {
            entries[kept] = entry;
            kept += 1;
        }
    }
    entries.truncate(kept);
}

/// Leaves the generations that nothing holds.
pub fn keep_unheld(gens: &mut Vec<u32>, entries: &[Held])
    requires { Rise entries.now }
    ensures items { gens.new.items ≡ unheld entries.now gens.old.items }
    ensures places { vec_capacity gens.new ≡ vec_capacity gens.old }
{
    let mut kept = 0usize;
    for at in 0..gens.len() {
        let generation = gens[at];
        if !is_held(entries, generation) {
            gens[kept] = generation;
            kept += 1;
        }
    }
    gens.truncate(kept);
}
