//! The hits that precede a truncation point.
ghost use Rattle.std.specs.Prelude.{◌≡◌, ◌<◌, ◌-◌, All, length, slice_index_or};
ghost use Rattle.std.specs.Vec.{vec_capacity};
ghost use Rattle.sg_base.specs.declared.hit.Hit.{Hit as PlainHit};
ghost use Rattle.sg_base.specs.Cuts.{precedes};
ghost use Rattle.sg_base.specs.Ranking.{IsKept};
ghost use Rattle.collector.specs.Hits.{row_of, rows_of};
ghost use Rattle.collector.specs.Tops.{preceding};

use crate::keys::Keys;
use sg_base::{Cut, Hit};

fn hit_precedes<K: Keys>(keys: &K, hit: &Hit, cut: &Cut) -> bool
    requires { K.known keys.now hit.now }
    ensures { result ≡ precedes cut.now (row_of (K.key_of keys.now) hit.now) }
{
    if hit.score != cut.score {
        return hit.score > cut.score;
    }
    keys.key(hit).cmp(cut.key.as_slice()).is_lt()
}

fn last_precedes<K: Keys>(keys: &K, hits: &[Hit], cut: &Cut) -> bool
    requires some { 0 < length hits.now }
    requires known { All (K.known keys.now) hits.now }
    ensures { (d : PlainHit) → result ≡ precedes cut.now
        (row_of (K.key_of keys.now) (slice_index_or hits.now (length hits.now - 1) d)) }
{
    hit_precedes(keys, &hits[hits.len() - 1], cut)
}

/// Leaves the hits that precede, which are the first ones.
pub fn keep_preceding<K: Keys>(keys: &K, hits: &mut Vec<Hit>, cut: &Cut)
    requires known { All (K.known keys.now) hits.old.items }
    requires kept { IsKept (rows_of (K.key_of keys.now) hits.old.items) }
    ensures items { hits.new.items
        ≡ preceding cut.now (row_of (K.key_of keys.now)) hits.old.items }
    ensures places { vec_capacity hits.new ≡ vec_capacity hits.old }
{
    while hits.len() > 0 && !last_precedes(keys, hits.as_slice(), cut) {
        hits.pop();
    }
}
