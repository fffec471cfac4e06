//! Halving the index by ids.
ghost use Rattle.std.specs.Prelude.{◌≡◌, ◌≤◌, ◌<◌, ◌+◌, ℕ, true, false, length, get_or};
ghost use Rattle.sg_paths.specs.Operations.{PlainNumbered};
ghost use Rattle.seg_table.specs.Ids.{id_of, is_within};

use seg_bytes::PackedDocuments;

/// How far into the index an id reaches.
#[derive(Clone, Copy, Debug)]
pub(crate) enum Reach {
    /// Up to the first document with the id.
    Before,
    /// Past the last document with the id.
    Through,
}

fn is_within(reach: Reach, wanted: &str, id: &[u8]) -> bool
    ensures { result ≡ is_within reach wanted.now id.now }
{
    let order = id.cmp(wanted.as_bytes());
    match reach {
        Reach::Before => order.is_lt(),
        Reach::Through => order.is_le(),
    }
}

fn id_at(docs: &PackedDocuments, place: u32) -> &[u8]
    requires { place < length docs.now }
    ensures { result.now ≡ id_of docs.entry.now place }
{
    docs.id_bytes(place)
}

fn place_at(ids: &[u32], at: usize) -> u32
    requires { at < length ids.now }
    ensures { result ≡ get_or ids.now at 0 }
{
    ids[at]
}

/// How much of the index an id reaches past.
pub(crate) fn count_within(docs: &PackedDocuments, ids: &[u32], reach: Reach, wanted: &str) -> usize
    requires places { (k : ℕ) → k < length ids.now → get_or ids.now k 0 < length docs.now }
    requires falls { (i j : ℕ) → i ≤ j → j < length ids.now
        → is_within reach wanted.now (id_of docs.now (get_or ids.now j 0)) ≡ true
        → is_within reach wanted.now (id_of docs.now (get_or ids.now i 0)) ≡ true }
    ensures within { result ≤ length ids.now }
    ensures below { (k : ℕ) → k < result
        → is_within reach wanted.now (id_of docs.now (get_or ids.now k 0)) ≡ true }
    ensures from { (k : ℕ) → result ≤ k → k < length ids.now
        → is_within reach wanted.now (id_of docs.now (get_or ids.now k 0)) ≡ false }
{
    let mut low: usize = 0;
    let mut high: usize = ids.len();
    while low < high {
        let middle = low + (high - low) / 2;
        if is_within(reach, wanted, id_at(docs, place_at(ids, middle))) {
            low = middle + 1;
        } else {
            high = middle;
        }
    }
    low
}
