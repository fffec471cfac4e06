//! Answering the queries of a view.
ghost use Rattle.std.specs.Prelude.{◌≡◌, ◌<◌, ◌≤◌, ◌+◌, List, All, IfOk, OnErr, OnOk};
ghost use Rattle.sg_base.specs.Ranking.{IsKept};
ghost use Rattle.sg_paths.specs.Operations.{PlainOp};
ghost use Rattle.sg_answers.specs.Reports.{IsReport};
ghost use Rattle.collector.specs.Hits.{rows_of};
ghost use Rattle.path_desk.specs.Desks.{reserved};
ghost use Rattle.sg_view.specs.Building.{IsCounted};
ghost use Rattle.sg_view.specs.Rows.{HasHit, IsNumbered, hit_key};
ghost use Rattle.sg_view.specs.Searched.{IsHitIn};
ghost use Rattle.sg_view.specs.Searching.{queue_of, greatest_queue, need_of, view_steps};
ghost use Rattle.sg_view.specs.Viewing.{Represents, seen_segment, viewed_segments};

use crate::searching::search_all;
use crate::view::{View, Viewed};
use best_first::queue_size;
use collector::{Report, Top};
use path_desk::{Desk, Need, SegReport};
use sg_base::Steps;
use sg_context::Query;
use std::alloc::AllocError;

/// The most bytes of a path: those of a context and a key, the ends of both and a number.
const MOST_PATH_BYTES: u32 = 324;

fn queue_of(viewed: &Viewed, k: u32) -> u32
    requires { IsCounted viewed.now }
    ensures { result ≡ queue_of k (seen_segment viewed.now) }
{
    let live = viewed.live.count();
    if live == 0 {
        return 0;
    }
    let table = viewed.segment.table();
    queue_size(k, table.most_paths(), table.len(), live)
}

fn greatest_queue(view: &View, k: u32) -> u32
    ensures { result ≡ greatest_queue k (viewed_segments view.now) }
{
    let segments = view.segments();
    let mut most = 0;
    for viewed in segments {
        most = most.max(queue_of(viewed, k));
    }
    most
}

// Gives the list of a collector back.
fn give_back(view: &View, top: Top, desk: &mut Desk)
    requires known { All (IsHitIn view.now.segments) top.hits }
    requires kept { IsKept (rows_of (hit_key view.now.segments) top.hits) }
    requires list { desk.old.lists ≡ 1 }
    requires places { desk.old.need.k ≤ top.places }
    ensures list { desk.new.lists ≡ 2 }
    ensures need { desk.new.need ≡ desk.old.need }
{
    let report = top.close(view, None);
    desk.take_back(SegReport {
        hits: report.hits,
        cut: None,
    });
}

impl View {
    /// Makes a desk ready for a query: the places of the greatest queue, and two lists of k hits.
    /// Takes no memory where they are there already.
    pub fn reserve(&self, query: &Query, desk: &mut Desk) -> Result<(), AllocError>
        ensures ok { OnOk result
            (desk.new ≡ reserved desk.old (need_of query.now.k (viewed_segments self.now))) }
        ensures err { OnErr result (desk.new ≡ desk.old) }
    {
        desk.reserve(Need {
            room: greatest_queue(self, query.k),
            bytes: MOST_PATH_BYTES,
            k: query.k,
        })
    }

    /// The first k rows of all segments by rank, one for each live document, or those that precede
    /// the first truncation point of a segment, on a desk that is reserved for this view and query.
    /// Where in each segment no more paths match than its queue holds, the report is complete: so
    /// says the law `complete_where_queues_suffice` of `sg_answers`. A step is a look at a node of a
    /// transducer or at the document of a path. The report takes a list of hits with it, which
    /// `Desk::take_back` may give back.
    pub fn suggest<L>(
        &self,
        query: &Query,
        desk: &mut Desk,
        steps: &mut Steps<L>,
    ) -> Result<Report, AllocError>
        requires reserved { query.now.k ≤ desk.old.need.k }
        requires lists { 1 < desk.old.lists }
        // What the report is.
        ensures report { IfOk result (λ report. (journal : List PlainOp)
            → Represents journal self.now → IsReport query.now (viewed_segments self.now)
            (rows_of (hit_key self.now.segments) report.hits.items) report.cut) }
        ensures hits { IfOk result (λ report.
            All (HasHit self.now.segments) report.hits.items) }
        ensures numbers { IfOk result (λ report.
            All (IsNumbered self.now.segments) report.hits.items) }
        ensures places { IfOk result (λ report. desk.old.need.k ≤ report.hits.places) }
        // What becomes of the desk.
        ensures ok { OnOk result (desk.new.lists + 1 ≡ desk.old.lists) }
        ensures err { OnErr result (desk.new.lists ≡ desk.old.lists) }
        ensures need { desk.new.need ≡ desk.old.need }
        // What it takes.
        ensures ticks { steps.new
            ≤ steps.old + view_steps query.now (viewed_segments self.now) }
    {
        let k = query.k;
        let mut top = Top::new(desk.hits(), k);
        match search_all(self, query, desk, &mut top, steps) {
            Ok(cut) => Ok(top.close(self, cut)),
            Err(error) => {
                give_back(self, top, desk);
                Err(error)
            }
        }
    }
}
