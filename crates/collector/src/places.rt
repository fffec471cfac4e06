//! Where a hit goes among those in rank order.
ghost use Rattle.std.specs.Prelude.{◌≡◌, ◌<◌, ◌≤◌, All, length, IfSome, slice_index_or};
ghost use Rattle.std.specs.Ordering.{is_lt};
ghost use Rattle.std.specs.List.{position_from};
ghost use Rattle.sg_base.specs.Ranking.{rank_cmp, IsKept};
ghost use Rattle.sg_base.specs.declared.rank.Rank.{Rank};
ghost use Rattle.collector.specs.Hits.{row_of, rows_of};
ghost use Rattle.collector.specs.Places.{IsPlace, has_seq};

use crate::keys::Keys;
use sg_base::Hit;

// Whether a hit stands before another.
fn is_before<K: Keys>(keys: &K, one: &Hit, other: &Hit) -> bool
    requires one { K.known keys.now one.now }
    requires other { K.known keys.now other.now }
    ensures { result ≡ is_lt (rank_cmp (row_of (K.key_of keys.now) one.now)
        (row_of (K.key_of keys.now) other.now)) }
{
    if one.score != other.score {
        return one.score > other.score;
    }
    let order = keys
        .key(one)
        .cmp(keys.key(other))
        .then(one.seq.cmp(&other.seq))
        .then(one.place.cmp(&other.place));
    order.is_lt()
}

fn is_before_at<K: Keys>(keys: &K, hits: &[Hit], at: usize, hit: &Hit) -> bool
    requires at { at < length hits.now }
    requires known { All (K.known keys.now) hits.now }
    requires hit { K.known keys.now hit.now }
    ensures { (d : Rank) → result ≡ is_lt (rank_cmp
        (slice_index_or (rows_of (K.key_of keys.now) hits.now) at d)
        (row_of (K.key_of keys.now) hit.now)) }
{
    is_before(keys, &hits[at], hit)
}

/// How many stand before a hit. Looks from the end, since rows mostly come in rank order.
pub fn place_of<K: Keys>(keys: &K, hits: &[Hit], hit: &Hit) -> usize
    requires known { All (K.known keys.now) hits.now }
    requires hit { K.known keys.now hit.now }
    requires kept { IsKept (rows_of (K.key_of keys.now) hits.now) }
    ensures bound { result ≤ length hits.now }
    ensures place { IsPlace (row_of (K.key_of keys.now) hit.now)
        (rows_of (K.key_of keys.now) hits.now) result }
{
    let mut at = hits.len();
    while at > 0 && !is_before_at(keys, hits, at - 1, hit) {
        at -= 1;
    }
    at
}

/// The place of the hit of a document.
pub fn place_of_document(hits: &[Hit], seq: u64) -> Option<usize>
    ensures first { result ≡ position_from (has_seq seq) 0 hits.now }
    ensures within { IfSome result (λ at. at < length hits.now) }
{
    hits.iter().position(|hit| hit.seq == seq)
}
