//! Pending views.
ghost use Rattle.std.specs.Prelude.{◌≡◌, List, IfOk, IfErr};
ghost use Rattle.sg_paths.specs.Operations.{PlainOp};
ghost use Rattle.segment.specs.Views.{AreBuildable, AreParts};
ghost use Rattle.sg_view.specs.Viewing.{Represents, IsViewOf};

use crate::building::view_pieces;
use crate::view::View;
use segment::ViewParts;
use std::alloc::Global;
use std::marker::Model;

/// A view that isn't built yet. It can't be dropped: it is built, or its parts are given back.
pub struct Ticket {
    alloc: Global,
    parts: ViewParts,
}

impl Model for Ticket {
    ghost use Rattle.segment.specs.Views.{PlainParts, AreBuildable};

    ghost Value = { PlainParts };

    ghost view = { λ t. t.parts };

    ghost invariant = { λ t. AreBuildable t.parts };
}

impl Ticket {
    /// The ticket of the parts that a view began with.
    pub fn of(alloc: Global, parts: ViewParts) -> Ticket
        requires { AreBuildable parts }
        ensures { result ≡ parts }
    {
        Ticket { alloc, parts }
    }

    /// The parts that it was made of.
    pub fn parts(self) -> ViewParts
        ensures { result ≡ self }
    {
        let Ticket { alloc: _, parts } = self;
        parts
    }

    /// How many operations the view sees.
    pub fn upto(&self) -> u64
        ensures { result ≡ self.now.upto }
    {
        self.parts.upto
    }

    /// Builds segments of unbuilt batches, and applies the deletes up to the last operation that
    /// the view sees. Want of memory hands the ticket back.
    pub fn build(self) -> Result<View, Ticket>
        ensures ok { IfOk result (IsViewOf self) }
        ensures represents { IfOk result (λ v. (journal : List PlainOp)
            → AreParts journal self → Represents journal v) }
        ensures returned { IfErr result (λ t. t ≡ self) }
    {
        let Ticket { alloc, parts } = self;
        let Ok(segments) = view_pieces(
            alloc,
            parts.pieces.items(),
            parts.upto,
            parts.batches.items(),
        ) else {
            return Err(Ticket { alloc, parts });
        };
        let ViewParts {
            view,
            upto,
            pieces: _,
            batches: _,
            gens,
        } = parts;
        Ok(View::new(alloc, view, upto, segments, gens))
    }
}
