//! The collector.
ghost use Rattle.std.specs.Prelude.{◌≡◌, ◌≤◌, ◌-◌, ◌⊎◌, [], All, length, take, nat_lt};
ghost use Rattle.std.specs.Prelude.{if◌then◌else◌, None, slice_get};
ghost use Rattle.std.specs.Vec.{vec_capacity};
ghost use Rattle.sg_base.specs.Lists.{In};
ghost use Rattle.sg_base.specs.Ranking.{IsKept};
ghost use Rattle.sg_base.specs.declared.hit.Hit.{Hit as PlainHit};
ghost use Rattle.sg_base.specs.Rows.{put_row};
ghost use Rattle.collector.specs.Hits.{row_of, rows_of};
ghost use Rattle.collector.specs.Tops.{closed, AreRankings, StaysFirst};

use crate::closing::keep_preceding;
use crate::inserting::{insert_bounded, move_to};
use crate::keys::Keys;
use crate::places::{place_of, place_of_document};
use crate::report::Report;
use sg_base::{Cut, Hit, List};
use std::marker::Model;

/// The first k rows of all that were put so far, one for each document, in rank order.
#[derive(Drop)]
pub struct Top {
    hits: Vec<Hit>,
    k: u32,
}

impl Model for Top {
    ghost use Rattle.std.specs.Prelude.{◌≤◌, vec_len};
    ghost use Rattle.std.specs.Vec.{vec_capacity};
    ghost use Rattle.collector.specs.Tops.{PlainTop};

    ghost Value = { PlainTop };

    ghost view = { λ t. record { hits = t.hits.items; k = t.k; places = vec_capacity t.hits } };

    ghost invariant = { λ t. (1 ≤ t.k) × (vec_len t.hits ≤ t.k) × (t.k ≤ vec_capacity t.hits) };
}

impl Top {
    /// A collector without a row, in the places of `room`.
    pub fn new(room: Vec<Hit>, k: u32) -> Top
        requires least { 1 ≤ k }
        requires empty { room.items ≡ [] }
        requires places { k ≤ vec_capacity room }
        ensures hits { result.hits ≡ [] }
        ensures k { result.k ≡ k }
        ensures places { result.places ≡ vec_capacity room }
    {
        Top { hits: room, k }
    }

    /// The k-th kept row by rank, and None where fewer are kept.
    pub fn last(&self) -> Option<Hit>
        ensures { result ≡ (if nat_lt (length self.now.hits) self.now.k then None
            else slice_get self.now.hits (self.now.k - 1)) }
    {
        if self.hits.len() < self.k as usize {
            None
        } else {
            self.hits.last().copied()
        }
    }

    /// Keeps the first k of what it held and one row more. Looks for its place from the end, since
    /// rows mostly come in rank order: one comparison there, and at most k otherwise.
    pub fn put<K: Keys>(&mut self, keys: &K, hit: Hit)
        requires known { All (K.known keys.now) self.old.hits }
        requires hit { K.known keys.now hit }
        requires kept { IsKept (rows_of (K.key_of keys.now) self.old.hits) }
        // Which rows are kept.
        ensures rows { rows_of (K.key_of keys.now) self.new.hits
            ≡ take self.old.k (put_row (row_of (K.key_of keys.now) hit)
            (rows_of (K.key_of keys.now) self.old.hits)) }
        ensures first { StaysFirst self.old.k (row_of (K.key_of keys.now) hit)
            (rows_of (K.key_of keys.now) self.old.hits)
            (rows_of (K.key_of keys.now) self.new.hits) }
        ensures from { (h : PlainHit) → In h self.new.hits → (h ≡ hit) ⊎ In h self.old.hits }
        // What the next call asks for.
        ensures known { All (K.known keys.now) self.new.hits }
        ensures kept { IsKept (rows_of (K.key_of keys.now) self.new.hits) }
        // What stays.
        ensures k { self.new.k ≡ self.old.k }
        ensures places { self.new.places ≡ self.old.places }
    {
        let at = place_of(keys, self.hits.as_slice(), &hit);
        match place_of_document(self.hits.as_slice(), hit.seq) {
            Some(own) => {
                if at <= own {
                    move_to(&mut self.hits, own, at, hit);
                }
            }
            None => insert_bounded(&mut self.hits, self.k as usize, at, hit),
        }
    }

    /// The report of the kept rows: complete where k of them precede the truncation point or there
    /// is none, else those that precede it, with it.
    pub fn close<K: Keys>(self, keys: &K, cut: Option<Cut>) -> Report
        requires known { All (K.known keys.now) self.hits }
        requires kept { IsKept (rows_of (K.key_of keys.now) self.hits) }
        ensures hits { result.hits.items
            ≡ (closed self.k (row_of (K.key_of keys.now)) self.hits cut).hits }
        ensures cut { result.cut
            ≡ (closed self.k (row_of (K.key_of keys.now)) self.hits cut).cut }
        ensures places { result.hits.places ≡ self.places }
    {
        let Top { hits, k } = self;
        let Some(cut) = cut else {
            return report_of(hits, None);
        };
        let mut first = hits;
        keep_preceding(keys, &mut first, &cut);
        // At most k are kept, so where k precede none of them went.
        if first.len() >= k as usize {
            return report_of(first, None);
        }
        report_of(first, Some(cut))
    }
}

/// What rows give that are put one after another is their ranking.
pub fn rankings_are_exact()
    ensures { AreRankings }
{}

fn report_of(hits: Vec<Hit>, cut: Option<Cut>) -> Report
    ensures hits { result.hits.items ≡ hits.items }
    ensures cut { result.cut ≡ cut }
    ensures places { result.hits.places ≡ vec_capacity hits }
{
    Report {
        hits: List::of(hits),
        cut,
    }
}
