//! Changes of the slot of a generation.
ghost use Rattle.std.specs.Prelude.{◌≡◌, ◌≤◌, nat_eq, if◌then◌else◌, map, vec_len};
ghost use Rattle.std.specs.List.{position_from};
ghost use Rattle.std.specs.List.Sorted.{IsNonDecreasing};
ghost use Rattle.std.specs.Vec.{vec_capacity};
ghost use Rattle.index_core.specs.HeldGenerations.{RisesFrom};
ghost use Rattle.index_core.specs.Slots.{with_slot, has_slot, lacks_segment, slot_built};
ghost use Rattle.index_core.specs.Slots.{lacks_deletes, slot_lived, without_slots};

use crate::searching::is_among;
use crate::slot::Slot;
use seg_live::Live;
use segment::Segment;
use std::sync::Arc;

fn position_of(slots: &[Slot], generation: u32) -> Option<usize>
    ensures { result ≡ position_from (λ s. nat_eq s.generation generation) 0 slots.now }
{
    slots.iter().position(|slot| slot.generation == generation)
}

fn put_segment(slot: &mut Slot, segment: Arc<Segment>) -> bool
    ensures answer { result ≡ lacks_segment slot.old }
    ensures slot { slot.new ≡ (if lacks_segment slot.old
        then slot_built segment.value slot.old else slot.old) }
{
    if slot.segment.is_some() {
        return false;
    }
    slot.segment = Some(segment);
    true
}

/// Gives the slot of a generation its segment, if there is one without.
pub(crate) fn build_slot(slots: &mut Vec<Slot>, generation: u32, segment: Arc<Segment>) -> bool
    requires { RisesFrom 1 (map (λ s. s.generation) slots.old.items) }
    ensures answer { result ≡ has_slot generation lacks_segment slots.old.items }
    ensures slots { slots.new.items ≡ (if has_slot generation lacks_segment slots.old.items
        then with_slot generation (slot_built segment.value) slots.old.items
        else slots.old.items) }
    ensures len { vec_len slots.new ≡ vec_len slots.old }
    ensures places { vec_capacity slots.new ≡ vec_capacity slots.old }
{
    match position_of(slots.as_slice(), generation) {
        Some(at) => put_segment(&mut slots[at], segment),
        None => false,
    }
}

fn set_live(slot: &mut Slot, live: Arc<Live>, applied: u64)
    ensures { slot.new ≡ slot_lived live.value applied slot.old }
{
    slot.live = Some(live);
    slot.applied = applied;
}

fn put_live(slot: &mut Slot, live: Arc<Live>, applied: u64) -> bool
    ensures answer { result ≡ lacks_deletes applied slot.old }
    ensures slot { slot.new ≡ (if lacks_deletes applied slot.old
        then slot_lived live.value applied slot.old else slot.old) }
{
    if slot.segment.is_some() && slot.applied < applied {
        set_live(slot, live, applied);
        return true;
    }
    false
}

/// Gives the slot of a generation live docs that know more, if there is one with a segment.
pub(crate) fn live_slot(
    slots: &mut Vec<Slot>,
    generation: u32,
    live: Arc<Live>,
    applied: u64,
) -> bool
    requires { RisesFrom 1 (map (λ s. s.generation) slots.old.items) }
    ensures answer { result ≡ has_slot generation (lacks_deletes applied) slots.old.items }
    ensures slots { slots.new.items
        ≡ (if has_slot generation (lacks_deletes applied) slots.old.items
        then with_slot generation (slot_lived live.value applied) slots.old.items
        else slots.old.items) }
    ensures len { vec_len slots.new ≡ vec_len slots.old }
    ensures places { vec_capacity slots.new ≡ vec_capacity slots.old }
{
    match position_of(slots.as_slice(), generation) {
        Some(at) => put_live(&mut slots[at], live, applied),
        None => false,
    }
}

/// Takes the slots of these generations away.
pub(crate) fn remove_slots(slots: &mut Vec<Slot>, gens: &[u32])
    requires { IsNonDecreasing gens.now }
    ensures slots { slots.new.items ≡ without_slots gens.now slots.old.items }
    ensures len { vec_len slots.new ≤ vec_len slots.old }
    ensures places { vec_capacity slots.new ≡ vec_capacity slots.old }
{
    let mut kept = 0usize;
    for at in 0..slots.len() {
        if !is_among(slots[at].generation, gens) {
            slots.swap(kept, at);
            kept += 1;
        }
    }
    slots.truncate(kept);
}
