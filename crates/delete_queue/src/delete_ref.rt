//! Deletes that borrow their ids, and their order.
ghost use Rattle.std.specs.Prelude.{◌≡◌};
ghost use Rattle.std.specs.Cmp.{partial_equiv_from_equiv, partial_order_from_total};
ghost use Rattle.std.specs.Cmp.Rules.{comparing};
ghost use Rattle.std.specs.Ordering.{as_partial_cmp, eq_by_cmp};
ghost use Rattle.std.proofs.Common.{rules};
ghost use Rattle.std.proofs.lemmas.Cmp.{eq_by_cmp_equiv};
ghost use Rattle.delete_queue.specs.DeleteOrder.{delete_cmp, delete_cmp_total};

use sg_base::Text;
use std::cmp::Ordering;
use std::marker::Model;

/// The id that an operation deletes, borrowed, with the operation's number.
#[derive(Debug, Drop)]
pub(crate) struct DeleteRef<'b> {
    pub id: &'b Text,
    pub seq: u64,
}

impl<'b> Model for DeleteRef<'b> {
    ghost use Rattle.delete_queue.specs.Deletes.{NumberedDelete};

    ghost Value = { NumberedDelete };

    ghost view = { λ e. record { seq = e.seq; id = e.id.now } };
}

impl Ord for DeleteRef<'_> {
    ghost cmp = { delete_cmp };

    ghost total = { delete_cmp_total };

    ghost matches_partial_cmp = { Prim.search (comparing, rules) };

    ghost matches_eq = { Prim.search (comparing, rules) };

    fn cmp(&self, other: &DeleteRef<'_>) -> Ordering {
        self.id
            .as_str()
            .as_bytes()
            .cmp(other.id.as_str().as_bytes())
            .then(other.seq.cmp(&self.seq))
    }
}

impl PartialOrd for DeleteRef<'_> {
    ghost partial_cmp = { as_partial_cmp delete_cmp };

    ghost laws = { partial_order_from_total delete_cmp_total };

    fn partial_cmp(&self, other: &DeleteRef<'_>) -> Option<Ordering> {
        Some(self.cmp(other))
    }
}

impl PartialEq for DeleteRef<'_> {
    ghost eq = { eq_by_cmp delete_cmp };

    ghost laws = { partial_equiv_from_equiv (eq_by_cmp_equiv delete_cmp_total) };

    fn eq(&self, other: &DeleteRef<'_>) -> bool {
        self.cmp(other).is_eq()
    }
}

impl Eq for DeleteRef<'_> {
    ghost laws = { eq_by_cmp_equiv delete_cmp_total };
}
