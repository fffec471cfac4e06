//! Putting a hit at its place.
ghost use Rattle.std.specs.Prelude.{◌≡◌, ◌<◌, ◌≤◌, ◌++◌, List, [], ◌∷◌, length, take, insert};
ghost use Rattle.std.specs.Prelude.{remove, vec_len};
ghost use Rattle.std.specs.Vec.{vec_capacity};
ghost use Rattle.sg_base.specs.declared.hit.Hit.{Hit as PlainHit};

use sg_base::Hit;

/// A row of its document goes, and the new one comes before it.
pub fn move_to(hits: &mut Vec<Hit>, own: usize, at: usize, hit: Hit)
    requires own { own < length hits.old.items }
    requires at { at ≤ own }
    ensures items { hits.new.items ≡ insert (remove hits.old.items own) at hit }
    ensures places { vec_capacity hits.new ≡ vec_capacity hits.old }
{
    hits.remove(own);
    let Ok(()) = hits.insert(at, hit) else {
        unreachable!()
    };
}

// There is a place for one more.
fn insert_within(hits: &mut Vec<Hit>, at: usize, hit: Hit)
    requires at { at ≤ length hits.old.items }
    requires places { vec_len hits.old < vec_capacity hits.old }
    ensures items { hits.new.items ≡ insert hits.old.items at hit }
    ensures places { vec_capacity hits.new ≡ vec_capacity hits.old }
{
    let Ok(()) = hits.insert(at, hit) else {
        unreachable!()
    };
}

// The last of k rows goes where one more comes.
fn insert_full(hits: &mut Vec<Hit>, at: usize, hit: Hit)
    requires at { at < length hits.old.items }
    ensures items { (front : List PlainHit) × (last : PlainHit)
        × (hits.old.items ≡ front ++ last ∷ []) × (hits.new.items ≡ insert front at hit) }
    ensures places { vec_capacity hits.new ≡ vec_capacity hits.old }
{
    let Some(_last) = hits.pop() else {
        unreachable!()
    };
    insert_within(hits, at, hit);
}

/// The first k of the hits with one more.
pub fn insert_bounded(hits: &mut Vec<Hit>, k: usize, at: usize, hit: Hit)
    requires at { at ≤ length hits.old.items }
    requires few { length hits.old.items ≤ k }
    requires places { k ≤ vec_capacity hits.old }
    requires least { 1 ≤ k }
    ensures items { hits.new.items ≡ take k (insert hits.old.items at hit) }
    ensures places { vec_capacity hits.new ≡ vec_capacity hits.old }
{
    if hits.len() < k {
        insert_within(hits, at, hit);
    } else if at < k {
        insert_full(hits, at, hit);
    }
}
