//! Paths without their number, borrowed from the documents, in byte order.
ghost use Rattle.std.specs.Prelude.{◌≡◌, ◌++◌, ◌∷◌, []};
ghost use Rattle.std.specs.Cmp.{partial_equiv_from_equiv, partial_order_from_total};
ghost use Rattle.std.specs.Cmp.Lexicographic.{slice_cmp};
ghost use Rattle.std.specs.Cmp.Rules.{comparing};
ghost use Rattle.std.specs.Ordering.{as_partial_cmp, eq_by_cmp, nat_cmp};
ghost use Rattle.std.proofs.Common.{rules};
ghost use Rattle.std.proofs.lemmas.Cmp.{eq_by_cmp_equiv};
ghost use Rattle.sg_paths.specs.AllPaths.{entry_cmp, entry_cmp_total};

use sg_base::{CONTEXT_END, Context, Key, Weight};
use std::cmp::Ordering;
use std::marker::Model;

/// A path of the document at a place, without its number.
#[derive(Debug, Drop)]
pub(crate) struct EntryRef<'d> {
    pub context: &'d Context,
    pub key: &'d Key,
    pub weight: Weight,
    pub doc: u32,
    pub place: u8,
}

impl<'d> Model for EntryRef<'d> {
    ghost use Rattle.std.specs.Prelude.{◌≤◌};
    ghost use Rattle.sg_base.specs.declared.limits.TheConstants.{MOST_WEIGHT};
    ghost use Rattle.sg_paths.specs.AllPaths.{Entry};

    ghost Value = { Entry };

    ghost view = { λ e. record {
      context = e.context.now;
      key = e.key.now;
      weight = e.weight;
      doc = e.doc;
      place = e.place;
    } };

    ghost invariant = { λ e. e.weight ≤ MOST_WEIGHT };
}

/// Compares contexts with the byte that ends them, which the front of a longer one meets.
fn compare_contexts(first: &[u8], second: &[u8]) -> Ordering
    ensures { result ≡ slice_cmp nat_cmp
        (first.now ++ CONTEXT_END ∷ []) (second.now ++ CONTEXT_END ∷ []) }
{
    let mut i: usize = 0;
    while i < first.len() && i < second.len() {
        if first[i] != second[i] {
            return first[i].cmp(&second[i]);
        }
        i += 1;
    }
    if i < first.len() {
        return first[i].cmp(&CONTEXT_END).then(Ordering::Greater);
    }
    if i < second.len() {
        return CONTEXT_END.cmp(&second[i]).then(Ordering::Less);
    }
    Ordering::Equal
}

impl Ord for EntryRef<'_> {
    ghost cmp = { entry_cmp };

    ghost total = { entry_cmp_total };

    ghost matches_partial_cmp = { Prim.search (comparing, rules) };

    ghost matches_eq = { Prim.search (comparing, rules) };

    fn cmp(&self, other: &EntryRef<'_>) -> Ordering {
        compare_contexts(
            self.context.as_str().as_bytes(),
            other.context.as_str().as_bytes(),
        )
        .then(self.key.as_slice().cmp(other.key.as_slice()))
        .then(other.weight.cmp(&self.weight))
        .then(self.doc.cmp(&other.doc))
        .then(self.place.cmp(&other.place))
    }
}

impl PartialOrd for EntryRef<'_> {
    ghost partial_cmp = { as_partial_cmp entry_cmp };

    ghost laws = { partial_order_from_total entry_cmp_total };

    fn partial_cmp(&self, other: &EntryRef<'_>) -> Option<Ordering> {
        Some(self.cmp(other))
    }
}

impl PartialEq for EntryRef<'_> {
    ghost eq = { eq_by_cmp entry_cmp };

    ghost laws = { partial_equiv_from_equiv (eq_by_cmp_equiv entry_cmp_total) };

    fn eq(&self, other: &EntryRef<'_>) -> bool {
        self.cmp(other).is_eq()
    }
}

impl Eq for EntryRef<'_> {
    ghost laws = { eq_by_cmp_equiv entry_cmp_total };
}
